//! Tables, and sessions of them.

use rt_embed::Session;
use rt_filter::Settings;
use std::process::Abort;

pub(crate) const BOXES: &[u8] =
    b"1,0,10,0,10\n2,5,15,5,15,3\n3,20,30,0,10\n4,-5,-1,-5,-1,63\n5,12,12,12,12\n";

/// Settings of this fanout, for a table without a header.
pub(crate) fn settings(rt: &impl Abort, fanout: u8) -> Settings {
    Settings::new(false, fanout, 16_777_216).expect(rt, "they are in range")
}

/// A session of a table.
pub(crate) fn open<R: Abort + AllocGlobal>(rt: &R, fanout: u8, table: &[u8]) -> Session {
    Session::open(rt.alloc(), &settings(rt, fanout), table).expect(rt, "the table is sound")
}
