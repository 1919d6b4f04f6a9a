//! Texts, and the blocks that the rules of object text make of each. The faults of lines are seen through the program.

use crate::shown::{What, shows};
use object_reader::fault::LineFault;
use object_reader::reading::TEXT_LIMIT;
use std::alloc::{AllocError, Global};
use std::process::Abort;
use std::test::Fail;

/// Compares the blocks of bytes.
fn gives(rt: &impl Abort, alloc: Global, bytes: &[u8], wanted: &str) -> Result<(), AllocError> {
    shows(rt, alloc, bytes, What::Blocks, wanted)
}

/// Compares the blocks of each text.
fn each_gives(rt: &impl Abort, alloc: Global, table: &[(&[u8], &str)]) -> Result<(), AllocError> {
    for row in table {
        let (bytes, wanted) = *row;
        gives(rt, alloc, bytes, wanted)?;
    }
    Ok(())
}

/// Texts of blocks.
const BLOCKS: [(&[u8], &str); 16] = [
    (b"", ""),
    (b"\n \t\n# define host{\n ; define host{\n\r\n", ""),
    (b"define host{\n}", "Host 1\n"),
    (
        b"\n\ndefine contact {\n}\ndefine command{\n}\n",
        "Contact 3\nCommand 5\n",
    ),
    (
        b"define host{\n b 2\n a 1\n b 3\n}\n",
        "Host 1[b=2][a=1][b=3]\n",
    ),
    (b"define host{\r\n a b\r\n}\r\n", "Host 1[a=b]\n"),
    (b"define host{\na b\r\r\n}\n", "Host 1[a=b\r]\n"),
    (
        b"\tdefine\t host\t {\t\n\ta\t b \tc\t \n\t}\t\n",
        "Host 1[a=b \tc]\n",
    ),
    (b"define host{\na b\0c\n}\n", "Host 1[a=b\0c]\n"),
    (
        b"define host{ ; one\n a b;c\n #d\n ;e f\n g #h\n} ; two\n",
        "Host 1[a=b][g=#h]\n",
    ),
    (b"define host{\n} x\n}\n", "Host 1[}=x]\n"),
    (b"define host{\ndefine{ x\n}\n", "Host 1[define{=x]\n"),
    (b"define host{\nDEFINE x\n}\n", "Host 1[DEFINE=x]\n"),
    (
        b"define host{\nhost_name caf\xc3\xa9\n}\n",
        "Host 1[host_name=caf\u{e9}]\n",
    ),
    (
        b"define host{\n\xc3\xa9 \xc2\xa0x\n}\n",
        "Host 1[\u{e9}=\u{a0}x]\n",
    ),
    (b"define host{\na {b}\n}\n#", "Host 1[a={b}]\n"),
];

/// Lines that are joined by a backslash.
const JOINED: [(&[u8], &str); 15] = [
    (b"define host{\n a b\\\n  c d\n}\n", "Host 1[a=bc d]\n"),
    (b"define host{\n a b \\\n\t c\n}\n", "Host 1[a=b c]\n"),
    (b"define host{\n a b\\\n\\\n\t\\\n c\n}\n", "Host 1[a=bc]\n"),
    (b"define host{\n a b\\\\\n c d\n}\n", "Host 1[a=b\\][c=d]\n"),
    (
        b"define host{\n a b\\\\\\\n c d\n}\n",
        "Host 1[a=b\\\\][c=d]\n",
    ),
    (b"define host{\r\n a b\\\r\n c\r\n}\r\n", "Host 1[a=bc]\n"),
    (
        b"define host{\n a b\\\r\r\n c d\n}\n",
        "Host 1[a=b\\\r][c=d]\n",
    ),
    (b"define host{\n a b\\ \n c d\n}\n", "Host 1[a=b\\][c=d]\n"),
    (b"define host{\n}\\", "Host 1\n"),
    (b"define host{\n}\n\\", "Host 1\n"),
    (b"\n define \\\n host\\\n\t{\n}\n", "Host 2\n"),
    (b"# a\\\ndefine host{\ndefine host{\n}\n", "Host 3\n"),
    (b"\\\n  # a\\\n b\n;c\\\nd\n", ""),
    (b" \\\n\t \\\n \ndefine host{\n}\n", "Host 4\n"),
    (b"define host{\n a b\\\n;c\\\n d e\n}\n", "Host 1[a=b]\n"),
];

/// Semicolons that begin no comment.
const ESCAPED: [(&[u8], &str); 7] = [
    (b"define host{\n a b\\;c\n}\n", "Host 1[a=b;c]\n"),
    (b"define host{\n a \\;\n}\n", "Host 1[a=;]\n"),
    (b"define host{\n a b\\;c;d\\;e\n}\n", "Host 1[a=b;c]\n"),
    (b"define host{\n a b\\\\;c\n}\n", "Host 1[a=b\\;c]\n"),
    (b"define host{\n \\;a b \\; ;c\n}\n", "Host 1[;a=b ;]\n"),
    (b"define host{\n a b\\;\\\n\\;;c\n}\n", "Host 1[a=b;;]\n"),
    (b"# a \\; b\n", ""),
];

#[test]
fn reads_blocks(rt: HostRuntime) -> Result<(), AllocError> {
    each_gives(&rt, rt.alloc(), &BLOCKS)?;
    each_gives(&rt, rt.alloc(), &JOINED)?;
    each_gives(&rt, rt.alloc(), &ESCAPED)
}

/// A comment of two lines, a day line of two, an escape, a zero byte, two bytes of one character, two
/// backslashes at the end, and blanks joined to a close.
const CUT: &[u8] =
    b"#c\\\n d\ndefine timeperiod{\n monday 1 \\\r\n\t09:00\n a \\;b\0 ; x\n c \xc3\xa9\\\\\n}\\\n \n";

/// From which length to below which the front of `CUT` gives this.
const FRONTS: [(usize, usize, &str); 11] = [
    (0, 8, ""),
    (8, 25, "line 3: NotADefine"),
    (25, 28, "line 3: Unclosed"),
    (28, 35, "line 4: NoValue"),
    (35, 48, "line 3: Unclosed"),
    (48, 51, "line 6: NoValue"),
    (51, 60, "line 3: Unclosed"),
    (60, 62, "line 7: NoValue"),
    (62, 63, "line 7: NotUtf8"),
    (63, 67, "line 3: Unclosed"),
    (67, 72, "TimePeriod 3[monday 1=09:00][a=;b\0][c=\u{e9}\\]\n"),
];

#[test]
fn reads_each_prefix(rt: HostRuntime) -> Result<(), AllocError> {
    assert_eq!(rt; CUT.len(), 71);
    for (from, end, want) in &FRONTS {
        for length in *from..*end {
            gives(&rt, rt.alloc(), &CUT[..length.min(CUT.len())], want)?;
        }
    }
    Ok(())
}

/// A comment of so many bytes, and what follows it.
fn comment(alloc: Global, length: usize, after: &str) -> Result<Vec<u8>, AllocError> {
    let mut text = vec![in alloc; b'#'; length]?;
    text.extend_from_slice(after.as_bytes())?;
    Ok(text)
}

/// The length of a comment, what follows it, and what both give: a line has 4,096 bytes at most, and a text is measured first.
const LONG_LINES: [(usize, &str, &str); 8] = [
    (4096, "\n", ""),
    (4095, "\r\n", ""),
    (4097, "", "line 1: LineTooLong"),
    (4096, "\r\n", "line 1: LineTooLong"),
    (4096, "\\\n", "line 1: LineTooLong"),
    (4096, "\nx", "line 2: NotADefine"),
    (TEXT_LIMIT, "", "line 1: LineTooLong"),
    (TEXT_LIMIT, "\n", "TooLarge"),
];

#[test]
fn keeps_the_limits(rt: HostRuntime) -> Result<(), Fail> {
    for (length, after, wanted) in LONG_LINES {
        let text = comment(rt.alloc(), length, after)?;
        gives(&rt, rt.alloc(), text.as_slice(), wanted)?;
    }
    assert_eq!(rt; LineFault::NotUtf8.name(), "NotUtf8");
    Ok(())
}
