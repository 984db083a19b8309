//! A session whose source gives 7 bytes at a time and whose sink takes 5, with each fault in turn.
use super::{ROOM, run_into, told_from};
use line_io::{MemSink, MemSource};
use std::alloc::Global;
use std::test::Fail;
use transcript::Status;

/// The entries of a session, a line or one with its block, each with its reply.
const HOUSING: [(&str, &str); 22] = [
    ("criterion Rent 600 700 850 1000\n", "ok\n"),
    ("refs Rent 700 1000\n", "ok\n"),
    ("judge Rent 600 700 weak\n", "ok\n"),
    ("judge Rent 700 850 moderate\n", "ok\n"),
    ("judge Rent 850 1000 strong\n", "ok\n"),
    (
        "criterion \"Way to work\" \"on foot\" \"by bike\" \"by bus\"\n",
        "ok\n",
    ),
    (
        "judge \"Way to work\" \"on foot\" \"by bike\" 2..3\n",
        "ok\n",
    ),
    (
        "judge \"Way to work\" \"on foot\" \"by bus\" very-strong\n",
        "ok\n",
    ),
    (
        "judge \"Way to work\" \"by bike\" \"by bus\" strong\n",
        "ok\n",
    ),
    ("option \"Mill Street\"\n", "ok\n"),
    ("option Harbour\n", "ok\n"),
    ("perform \"Mill Street\" Rent 850\n", "ok\n"),
    (
        "perform \"Mill Street\" \"Way to work\" \"on foot\"\n",
        "ok\n",
    ),
    ("perform Harbour Rent 600\n", "ok\n"),
    ("perform Harbour \"Way to work\" \"by bus\"\n", "ok\n"),
    ("weigh Rent \"Way to work\" weak\n", "ok\n"),
    ("weigh \"Way to work\" none strong\n", "ok\n"),
    (
        "import Rent\n,600,700,850,1000\n600,,2,,\n700,,,3,\n850,,,,4\n1000,,,,\nend\n",
        "ok\n",
    ),
    (
        "anchored Rent\n",
        "anchored 4\n\"600\" 900/7 128.57\n\"700\" 100 100.00\n\"850\" 400/7 57.14\n\"1000\" 0 0.00\n",
    ),
    (
        "weights\n",
        "weights 2\n\"Rent\" 3/5 0.60\n\"Way to work\" 2/5 0.40\n",
    ),
    (
        "scores\n",
        "scores 2\n\"Mill Street\" 520/7 74.29\n\"Harbour\" 540/7 77.14\n",
    ),
    ("quit\n", "ok\n"),
];

/// The bytes of the session.
fn housing_input(alloc: Global) -> Result<Vec<u8>, Fail> {
    let mut input = Vec::new(alloc);
    for (line, _) in &HOUSING {
        input.extend_from_slice(line.as_bytes())?;
    }
    Ok(input)
}

/// The replies to the entries that are whole in so many of its first bytes.
fn housing_output(alloc: Global, taken: usize) -> Result<Vec<u8>, Fail> {
    let mut output = Vec::new(alloc);
    let mut left = taken;
    for (line, reply) in &HOUSING {
        if left < line.len() {
            break;
        }
        left = left.saturating_sub(line.len());
        output.extend_from_slice(reply.as_bytes())?;
    }
    Ok(output)
}

/// How the session ends, and what it writes, where this take of 7 bytes fails.
fn housing_read(alloc: Global, fails: u64) -> Result<(Status, Vec<u8>), Fail> {
    let takes = vec![in alloc; fails]?;
    let mut source = MemSource::make(housing_input(alloc)?, 7, takes);
    told_from(alloc, &mut source)
}

/// The same where this put of 5 bytes fails.
fn housing_write(alloc: Global, fails: u64) -> Result<(Status, Vec<u8>), Fail> {
    let mut sink = MemSink::make(alloc, ROOM, 5, vec![in alloc; fails]?)?;
    let status = run_into(alloc, housing_input(alloc)?, &mut sink);
    Ok((status, Vec::from_slice(alloc, sink.bytes())?))
}

#[test]
fn each_take_fails_in_turn(rt: HostRuntime) -> Result<(), Fail> {
    let alloc = rt.alloc();
    let length = housing_input(alloc)?.len();
    // The session has fewer than 120 times 7 bytes.
    for takes in 0..120_usize {
        let taken = takes.saturating_mul(7);
        let (status, text) = housing_read(alloc, (takes as u64).saturating_add(1))?;
        let wanted = if taken < length {
            Status::ReadFault
        } else {
            Status::Done
        };
        assert_eq!(rt; status, wanted, "{takes}");
        assert_eq!(rt;
            text.as_slice(),
            housing_output(alloc, taken)?.as_slice(),
            "{takes}"
        );
    }
    Ok(())
}

#[test]
fn each_put_fails_in_turn(rt: HostRuntime) -> Result<(), Fail> {
    let alloc = rt.alloc();
    let whole = housing_output(alloc, ROOM)?;
    // So many puts of at most 5 bytes are made.
    for puts in 0..57_u64 {
        let (status, text) = housing_write(alloc, puts.saturating_add(1))?;
        assert_eq!(rt; status, Status::WriteFault, "{puts}");
        assert!(rt; whole.starts_with(&text), "{puts}");
        assert!(rt; text.len() < whole.len(), "{puts}");
    }
    let (status, text) = housing_write(alloc, 58)?;
    assert_eq!(rt; status, Status::Done);
    assert_eq!(rt; text.as_slice(), whole.as_slice());
    Ok(())
}
