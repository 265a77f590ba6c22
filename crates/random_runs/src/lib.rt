//! Lists of calls that look random, on machines of all twelve wirings: beside a flat machine, and on main storage that is
//! altered from outside between calls.
#![tactic(auto)]

#[cfg(test)]
mod disturbed;
#[cfg(test)]
mod draw;
#[cfg(test)]
mod flat;
#[cfg(test)]
mod law;
#[cfg(test)]
mod make;
#[cfg(test)]
mod random;
#[cfg(test)]
mod run;
#[cfg(test)]
mod same;
#[cfg(test)]
mod wirings;
