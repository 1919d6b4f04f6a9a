//! What words say, and the lanes that they name. Each fault of a word is a row of `tests/run`.

use acceptance_inputs::configs::base;
use channel_words::{ChannelFault, Device, lanes_of, read_words, words_in};
use due_model::config::{Config, LaneId};
use due_model::limits::MAX_LANES;
use std::alloc::{AllocError, Global};
use std::process::Abort;

/// A word, and what it says: its name, its kind of channel, and what is said of it; or nothing.
type Row = (&'static str, &'static str);

const ROWS: [Row; 7] = [
    ("mail=mailbox:a=b:c", "mail mailbox a=b:c"),
    ("page=pager:[::1]:65535", "page pager [::1]:65535"),
    ("page=pager:h:0001", "page pager h:0001"),
    ("send=command:/bin/mail -s x", "send command /bin/mail -s x"),
    ("mail=Mailbox:x", ""),
    ("mail=pager:h:+80", ""),
    ("mail=command:  ", ""),
];

/// What a word says, as text.
fn said(alloc: Global, word: &str) -> Result<String, AllocError> {
    let words = match read_words(alloc, &[word]) {
        Ok(words) => words,
        Err(_) => return Ok(String::new(alloc)),
    };
    let Some(found) = words.first() else {
        return Ok(String::new(alloc));
    };
    let (kind, text) = match found.device {
        Device::Mailbox(path) => ("mailbox", path),
        Device::Pager(address) => ("pager", address),
        Device::Command(line) => ("command", line),
    };
    format!(in alloc; "{} {kind} {text}", found.name)
}

#[test]
fn words(rt: HostRuntime) -> Result<(), AllocError> {
    for (word, wanted) in ROWS {
        let found = said(rt.alloc(), word)?;
        assert_eq!(rt; found.as_str(), wanted, "{word}");
    }
    let program = words_in(rt.alloc(), "  /bin/mail -s  x ")?;
    assert_eq!(rt; program.as_slice(), ["/bin/mail", "-s", "x"].as_slice());
    Ok(())
}

/// Whether these words name as many lanes, each of them the first.
fn name_lanes(alloc: Global, config: &Config, words: &[&str]) -> bool {
    if config.lanes.len() > MAX_LANES {
        return false;
    }
    let Ok(read) = read_words(alloc, words) else {
        return false;
    };
    match lanes_of(alloc, config, &read) {
        Ok(lanes) => lanes.len() == words.len() && lanes.iter().all(|lane| *lane == LaneId(0)),
        Err(_) => false,
    }
}

/// Whether a word is refused with its name, which no contact lists.
fn names_nobody(alloc: Global, config: &Config, words: &[&str], wanted: &str) -> bool {
    if config.lanes.len() > MAX_LANES {
        return false;
    }
    let Ok(read) = read_words(alloc, words) else {
        return false;
    };
    match lanes_of(alloc, config, &read) {
        Err(ChannelFault::NoCommand(name)) => name == wanted,
        _ => false,
    }
}

#[test]
fn lanes(rt: HostRuntime) -> Result<(), AllocError> {
    let config = base(rt.alloc())?;
    let eight = ["mail=mailbox:x"; 8];
    assert!(rt; name_lanes(rt.alloc(), &config, &[]), "none");
    assert!(rt; name_lanes(rt.alloc(), &config, &eight), "eight");
    let unknown = ["mail=mailbox:x", "Mail=mailbox:x", "b=mailbox:x"];
    assert!(rt;
        names_nobody(rt.alloc(), &config, &unknown, "Mail"),
        "the first"
    );
    Ok(())
}
