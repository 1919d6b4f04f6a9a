//! Pagers that dial again.

use crate::devices::{Agreeing, Peers};
use crate::given::{DOWN, Letters, UP, answers, check, has};
use channel::Fault;
use channel_kinds::device_channel::DeviceChannel;
use channel_kinds::dialled::DialledPager;
use channel_kinds::stream::AnyStream;
use std::alloc::AllocError;

const FAILED: Result<(), Fault> = Err(Fault::Device);

/// The first stream takes a letter and ends; the next try finds nobody, and the one after it another stream.
#[test]
fn dials_again(rt: HostRuntime) -> Result<(), AllocError> {
    let letters = Letters::new(rt.alloc())?;
    let first = AnyStream::new(Agreeing { reads: 0, most: 3 });
    let pager = DialledPager::new(Peers { dialled: 0 }, first);
    let mut pager = DeviceChannel::new(rt.alloc(), pager);
    answers(&rt, &mut pager, &letters.down, Ok(()), "the first");
    answers(&rt, &mut pager, &letters.up, FAILED, "it has ended");
    answers(&rt, &mut pager, &letters.up, FAILED, "nobody is there");
    answers(&rt, &mut pager, &letters.up, Ok(()), "over another");
    check(&rt, has(&pager, &[DOWN, UP], 2), "what is kept");
    Ok(())
}
