//! What IPL is given, a record of the frame table, and a request that has passed its tests.

/// A partition: its first page, how many pages it has, and its access key.
#[derive(Clone, Copy, PartialEq, Eq, Debug)]
pub struct Partition {
    pub first: u32,
    pub count: u32,
    pub key: u8,
}

/// A record of the frame table: the page that the frame has, X'FFFF' for none, and how often that page is fixed.
#[derive(Clone, Copy, PartialEq, Eq, Debug)]
pub struct FrameRecord {
    pub page: u16,
    pub fixes: u8,
}

/// A request that has passed its tests: the page, the access key of its partition, and its frame or none.
#[derive(Clone, Copy, PartialEq, Eq, Debug)]
pub struct Request {
    pub page: u16,
    pub key: u8,
    pub frame: Option<u8>,
}
