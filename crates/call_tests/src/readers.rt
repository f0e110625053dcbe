//! The readers and printers of one statement, of which no command makes use: what is read is printed again, and each
//! kind of fault is told once.
use grs_base::{DeckFault, Kind, Line, List, ReadError, RnlEntry};
use job_syntax::{print_line, read_line};
use rnl_syntax::{print_rnldef, read_rnldef};
use std::alloc::Global;
use std::test::Fail;

fn line_text(alloc: Global, line: &Line) -> Result<List<u8>, ReadError> {
    let mut out = List::new(alloc);
    print_line(alloc, line, &mut out)?;
    Ok(out)
}

fn line_again(alloc: Global, text: &[u8]) -> Result<List<u8>, ReadError> {
    let line = read_line(alloc, text)?;
    line_text(alloc, &line)
}

fn entry_text(
    alloc: Global,
    entry: &RnlEntry,
    used: usize,
) -> Result<(List<u8>, usize), ReadError> {
    let mut out = List::new(alloc);
    print_rnldef(alloc, entry, &mut out)?;
    Ok((out, used))
}

/// The printed form of an entry, and how many bytes of the text it used.
fn entry_again(alloc: Global, text: &[u8]) -> Result<(List<u8>, usize), ReadError> {
    let (entry, used) = read_rnldef(alloc, text)?;
    entry_text(alloc, &entry, used)
}

fn told(fault: ReadError) -> Option<(u32, Kind)> {
    match fault {
        ReadError::Fault(DeckFault { line, kind }) => Some((line, kind)),
        ReadError::NoMemory => None,
    }
}

fn line_fault(alloc: Global, text: &[u8]) -> Option<(u32, Kind)> {
    match read_line(alloc, text) {
        Ok(_) => None,
        Err(fault) => told(fault),
    }
}

fn entry_fault(alloc: Global, text: &[u8]) -> Option<(u32, Kind)> {
    match read_rnldef(alloc, text) {
        Ok(_) => None,
        Err(fault) => told(fault),
    }
}

#[test]
fn task_lines(rt: HostRuntime) -> Result<(), Fail> {
    let alloc = rt.alloc();
    let cases: [(&[u8], &[u8]); 7] = [
        (
            b"ENQ ( A , B,E,SYSTEM ),RNL=NO,RET=USE",
            b"ENQ (A,B,E,SYSTEM),RET=USE,RNL=NO",
        ),
        (
            b"RESERVE (A,B,S,SYSTEMS),ECB,UCB=1a0b",
            b"RESERVE (A,B,S,SYSTEMS),UCB=1A0B,ECB",
        ),
        (
            b"DEQ (A,B,STEP),RNL=NO,RET=HAVE,UCB=00ff",
            b"DEQ (A,B,STEP),UCB=00FF,RET=HAVE,RNL=NO",
        ),
        (b"WAIT (X'41',' ',SYSTEM),RNL=YES", b"WAIT (A,' ',SYSTEM)"),
        (b"D GRS,C", b"DISPLAY GRS,C"),
        (b"D GRS,RES=(A,'b c')", b"DISPLAY GRS,RES=(A,'b c')"),
        (
            b"GQSCAN SCOPE=GLOBAL,RNAME=B,QNAME=A",
            b"GQSCAN SCOPE=GLOBAL,QNAME=A,RNAME=B",
        ),
    ];
    for (text, printed) in cases {
        let out = line_again(alloc, text)?;
        assert_eq!(rt; out.as_slice(), printed);
    }
    for (text, fault) in [
        (b"SYSTEM SYA".as_slice(), (1, Kind::UnknownStatement)),
        (b"\n\nENQ (A,B,X,SYSTEM)".as_slice(), (3, Kind::BadOperand)),
        (
            b"DEQ (ABCDEFGHI,B,SYSTEM)".as_slice(),
            (1, Kind::NameLength),
        ),
        // a byte that no deck may have, in the first word and behind it
        (
            b"EN\x7fQ (A,B,E,SYSTEM)".as_slice(),
            (1, Kind::UnknownStatement),
        ),
        (b"ENQ (A,'\xff',E,SYSTEM)".as_slice(), (1, Kind::BadOperand)),
        // a further statement
        (
            b"D GRS,C\n\nDEQ (A,B,SYSTEM)".as_slice(),
            (3, Kind::BadOperand),
        ),
        (b"D GRS,C\n/* open".as_slice(), (2, Kind::BadOperand)),
        (b"\n/* alone */\n".as_slice(), (1, Kind::UnknownStatement)),
    ] {
        assert_eq!(rt; line_fault(alloc, text), Some(fault));
    }
    Ok(())
}

#[test]
fn entries(rt: HostRuntime) -> Result<(), Fail> {
    let alloc = rt.alloc();
    let cases: [(&[u8], &[u8], usize); 3] = [
        (
            b"RNLDEF RNAME('SYS1.PARMLIB') /* one */\n  TYPE(SPECIFIC) QNAME(SYSDSN) RNL(EXCL)\nRNLDEF",
            b"RNLDEF RNL(EXCL) TYPE(SPECIFIC) QNAME(SYSDSN) RNAME(SYS1.PARMLIB)",
            79,
        ),
        (
            b"/* ( */ RNLDEF RNL(CON)\r\nTYPE(GENERIC)\r\nQNAME(/*)*/')'\r\n)\r\nSYSTEM SYA",
            b"RNLDEF RNL(CON) TYPE(GENERIC) QNAME(')')",
            57,
        ),
        (
            b"RNLDEF RNL(INCL)TYPE(PATTERN)QNAME ( 'APPL*  ' )\nFOO",
            b"RNLDEF RNL(INCL) TYPE(PATTERN) QNAME(APPL*)",
            48,
        ),
    ];
    for (text, printed, bytes) in cases {
        let (out, used) = entry_again(alloc, text)?;
        assert_eq!(rt; out.as_slice(), printed);
        assert_eq!(rt; used, bytes);
    }
    for (text, fault) in [
        (
            b"ENQ (A,B,E,SYSTEM)".as_slice(),
            (1, Kind::UnknownStatement),
        ),
        (
            b"RNLDEF RNL(INCL) TYPE(GENE".as_slice(),
            (1, Kind::BadOperand),
        ),
        (
            b"\nRNLDEF RNL(INCL) TYPE(GENERIC) QNAME(ABCDEFGHI)".as_slice(),
            (2, Kind::NameLength),
        ),
        // a byte that no deck may have, in the first word and behind it
        (
            b"RNL\x00DEF RNL(EXCL) TYPE(GENERIC) QNAME(A)".as_slice(),
            (1, Kind::UnknownStatement),
        ),
        (
            b"RNLDEF RNL(EXCL) TYPE(GENERIC)\nQNAME('\x80')".as_slice(),
            (1, Kind::BadOperand),
        ),
        // a further statement on the same line
        (
            b"RNLDEF RNL(EXCL)\nTYPE(GENERIC) QNAME(A) SYSTEM SYA".as_slice(),
            (1, Kind::BadOperand),
        ),
        (b"\n/* RNLDEF".as_slice(), (2, Kind::BadOperand)),
        (b"\n/* alone */\n".as_slice(), (1, Kind::UnknownStatement)),
    ] {
        assert_eq!(rt; entry_fault(alloc, text), Some(fault));
    }
    Ok(())
}
