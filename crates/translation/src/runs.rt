//! Runs of calls on one main storage: lookaside registers cannot be told from none.
ghost use Rattle.std.specs.Prelude.{◌≡◌, List, IfOk, OnOk};
ghost use Rattle.translation.specs.Runs.{last_of, left_by, started, told_by, walk_answers, words_of};

use crate::translator::Translator;
use std::alloc::{AllocError, Global};
use tables::{Controls, Refusal};

/// A call of a run.
#[derive(Clone, Copy, Debug, PartialEq, Eq)]
pub enum Ask {
    Translate(u32),
    Forget(u32),
    Controls,
}

/// How a run starts.
#[derive(Clone, Copy, Debug, PartialEq, Eq)]
pub enum Start {
    Load(Controls),
    Purge,
}

/// What a call of a run answers.
#[derive(Clone, Copy, Debug, PartialEq, Eq)]
pub enum Told {
    Real(Result<usize, Refusal>),
    Forgotten,
    Held(Controls),
}

// One call.
fn answer<T: Translator>(translator: &mut T, storage: &[u8], ask: Ask) -> Told
    ensures told { result ≡ told_by T.Translator.rules storage.now (T.Translator.model translator.old) ask }
    ensures after { T.Translator.model translator.new ≡ left_by T.Translator.rules storage.now (T.Translator.model translator.old) ask }
{
    match ask {
        Ask::Translate(address) => Told::Real(translator.translate(storage, address)),
        Ask::Forget(page) => {
            translator.forget(page);
            Told::Forgotten
        }
        Ask::Controls => Told::Held(translator.controls()),
    }
}

// The start of a run.
fn start_run<T: Translator>(translator: &mut T, storage: &[u8], start: Start)
    ensures { T.Translator.model translator.new ≡ started T.Translator.rules storage.now (T.Translator.model translator.old) start }
{
    match start {
        Start::Load(controls) => translator.load_controls(storage, controls),
        Start::Purge => translator.purge(storage),
    }
}

/// Loads the control words or purges, and then works a list of calls on the same storage. Whatever translator it is, in
/// however many layers, the answers are those of the walk alone.
pub fn answer_all<T: Translator>(
    heap: Global,
    translator: &mut T,
    storage: &[u8],
    start: Start,
    asks: &[Ask],
) -> Result<Vec<Told>, AllocError>
    ensures walked { IfOk result (λ told. told.items ≡ walk_answers storage.now (words_of (T.Translator.rules.controls (T.Translator.model translator.old)) start) asks.now) }
    ensures after { OnOk result (T.Translator.model translator.new ≡ last_of T.Translator.rules storage.now (started T.Translator.rules storage.now (T.Translator.model translator.old) start) asks.now) }
{
    start_run(translator, storage, start);
    let mut told = Vec::new(heap);
    // Not `map` and `collect`: what `collect` ensures leaves open what its closure has made of the translator.
    for ask in asks {
        let one = answer(translator, storage, *ask);
        told.push(one)?;
    }
    Ok(told)
}
