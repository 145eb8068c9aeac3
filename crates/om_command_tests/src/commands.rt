use crate::rows::How::{Refused, Writes};
use crate::rows::{Command, Row, check};
use om_commands::decode::decode;
use om_commands::frontier::frontier;
use om_commands::sim::sim;
use om_commands::{BytesForm, CommandError};
use om_isa::Ext;
use om_text::MAX_BYTES;
use std::alloc::Global;
use std::io;
use std::io::{Read, Write};
use std::process::Abort;

static FRONTIERS: [Row; 24] = [
    ("procs 1", Writes, "recovery 0\n"),
    (
        "procs 16",
        Writes,
        "recovery 0 0 0 0 0 0 0 0 0 0 0 0 0 0 0 0\n",
    ),
    (
        "procs 3\nlog 0 1 1 1 0\nckpt 1 3 0 3 4\nlog 1 1 0 1 0\n",
        Writes,
        "noted: 0 0 0\nnoted: 0 0 0\nraised: 1 1 0\nrecovery 1 1 0\n",
    ),
    (
        "procs 2\nlog 0 1 1 1\nlog 1 1 0 1\n",
        Writes,
        "noted: 0 0\nraised: 1 1\nrecovery 1 1\n",
    ),
    (
        "procs 1\nlog 0 1 1\nlog 0 4 4\nckpt 0 3 3\n",
        Writes,
        "raised: 1\nnoted: 1\nraised: 4\nrecovery 4\n",
    ),
    (
        "procs 3\nlog 0 1 1 2 0\nlog 1 1 0 1 1\nlog 1 2 0 2 1\nlog 2 1 1 0 1\n",
        Writes,
        "noted: 0 0 0\nnoted: 0 0 0\nnoted: 0 0 0\nraised: 1 2 1\nrecovery 1 2 1\n",
    ),
    (
        "procs 2\nlog 0 1 1 1\nlog 0 2 2 0\nlog 0 1 1 1\nlog 0 1 1 0\nlog 0 3 2 0\nlog 2 1 0 0\n",
        Writes,
        "noted: 0 0\ndisorder 1: 0 0\nknown: 0 0\ndiffers: 0 0\nbad-vector: 0 0\nstranger: 0 0\nrecovery 0 0\n",
    ),
    (
        "# two processes\r\n\r\nprocs\t2\r\n  log 0 \t 001 1 0000000001\r\n\t\n#\nlog 16 1 1 0",
        Writes,
        "noted: 0 0\nstranger: 0 0\nrecovery 0 0\n",
    ),
    ("", Refused, "empty script"),
    ("# nothing\n\n \t\n", Refused, "empty script"),
    ("procs 0", Refused, "line 1: bad number"),
    ("procs 17", Refused, "line 1: bad number"),
    ("procs", Refused, "line 1: wrong count of words"),
    ("procs 2 2", Refused, "line 1: wrong count of words"),
    ("procs +2", Refused, "line 1: bad number"),
    ("procs 2\r", Refused, "line 1: bad number"),
    ("procs 2\nprocs 2", Refused, "line 2: out of place"),
    ("log 0 1 1", Refused, "line 1: out of place"),
    ("log", Refused, "line 1: out of place"),
    ("log x", Refused, "line 1: bad number"),
    (
        "procs 2\nlog 0 1 1",
        Refused,
        "line 2: wrong count of words",
    ),
    (
        "procs 1\nckpt 0 4294967296 0",
        Refused,
        "line 2: bad number",
    ),
    ("procs 1\nckpt 0 x 0\nprocs", Refused, "line 2: bad number"),
    ("\n# a\nproc 1", Refused, "line 3: unknown line"),
];

// The texts are GNU objdump's, laid out as the command does; that of the fence follows the manual.
static WORDS: [Row; 12] = [
    ("", Writes, ""),
    ("# nothing\n\n \t\n", Writes, ""),
    (
        "00500093\nFE000EE3\n0FF0000F\n123452B7\n41F0D093\n",
        Writes,
        "addi x1, x0, 5\nbeq x0, x0, -4\nfence x0, x0, 0xff\nlui x5, 0x12345\nsrai x1, x1, 31\n",
    ),
    (
        "40004033\n00001073\n00000000\n00000073\n00100073",
        Writes,
        "none\nnone\nnone\necall\nebreak\n",
    ),
    (
        "# in either case\r\n\r\n fe000ee3 \t\r\n",
        Writes,
        "beq x0, x0, -4\n",
    ),
    ("0050009", Refused, "line 1: bad word"),
    ("000500093", Refused, "line 1: bad word"),
    ("0x500093", Refused, "line 1: bad word"),
    ("00500093\n\n0050009g", Refused, "line 3: bad word"),
    ("00500093 00500093", Refused, "line 1: wrong count of words"),
    ("x y", Refused, "line 1: wrong count of words"),
    ("00500093\nx\nx y", Refused, "line 2: bad word"),
];

const PRODUCTS: &str = "022081B3\n0220F1B3\n00500093\n";

static OF_THE_BASE: [Row; 1] = [(PRODUCTS, Writes, "none\nnone\naddi x1, x0, 5\n")];

static OF_PRODUCTS: [Row; 1] = [(
    PRODUCTS,
    Writes,
    "mul x3, x1, x2\nremu x3, x1, x2\naddi x1, x0, 5\n",
)];

#[test]
fn scripts_and_words_and_their_texts(rt: HostRuntime) {
    check(&rt, rt.alloc(), Command::Frontier, "", &FRONTIERS);
    check(&rt, rt.alloc(), Command::Decode(Ext::I), "", &WORDS);
    check(&rt, rt.alloc(), Command::Decode(Ext::I), "", &OF_THE_BASE);
    check(&rt, rt.alloc(), Command::Decode(Ext::Im), "", &OF_PRODUCTS);
}

/// A stream that refuses after a number of calls.
#[derive(Drop)]
pub struct Failing {
    pub calls: u32,
}

impl Read for Failing {
    fn read(&mut self, buf: &mut [u8]) -> io::Result<usize> {
        if self.calls == 0 || buf.is_empty() {
            return Err(io::Error::from(io::ErrorKind::Other));
        }
        self.calls -= 1;
        buf[0] = b'#';
        Ok(1)
    }
}

impl Write for Failing {
    fn write(&mut self, buf: &[u8]) -> io::Result<usize> {
        if self.calls == 0 || buf.is_empty() {
            return Err(io::Error::from(io::ErrorKind::Other));
        }
        self.calls -= 1;
        Ok(1)
    }

    fn flush(&mut self) -> io::Result<()> {
        Ok(())
    }
}

// Returns what each command answers to a stream that fails in its midst, and how much it wrote.
fn unread(alloc: Global) -> ([Result<(), CommandError>; 3], usize) {
    let mut written = Vec::new(alloc);
    let answers = [
        frontier(alloc, &mut Failing { calls: 3 }, &mut written),
        decode(alloc, Ext::I, &mut Failing { calls: 3 }, &mut written),
        sim(
            alloc,
            BytesForm::Hex,
            &mut Failing { calls: 3 },
            &mut written,
        ),
    ];
    (answers, written.len())
}

// Returns what each answers where its text cannot be written to the end.
fn unwritten(alloc: Global) -> [Result<(), CommandError>; 3] {
    let mut one = b"program a 16 00000893 00000073\nproc p a\n".as_slice();
    [
        frontier(alloc, &mut b"procs 1".as_slice(), &mut Failing { calls: 3 }),
        decode(
            alloc,
            Ext::I,
            &mut b"00000073".as_slice(),
            &mut Failing { calls: 3 },
        ),
        sim(alloc, BytesForm::Hex, &mut one, &mut Failing { calls: 3 }),
    ]
}

// Nothing is written of what cannot be read.
#[test]
fn streams_that_fail(rt: HostRuntime) {
    let (answers, written) = unread(rt.alloc());
    assert!(&rt;
        answers == [Err(CommandError::CannotRead); 3] && written == 0,
        "{answers:?}"
    );
    let answers = unwritten(rt.alloc());
    assert!(&rt;
        answers == [Err(CommandError::CannotWrite); 3],
        "{answers:?}"
    );
}

#[test]
fn inputs_at_the_limit(rt: HostRuntime) {
    let input = vec![in rt.alloc(); b'#'; MAX_BYTES + 1].expect(&rt, "memory");
    check_limit(&rt, rt.alloc(), &input, CommandError::TooLong);
    check_limit(
        &rt,
        rt.alloc(),
        &input.as_slice()[1..],
        CommandError::EmptyScript,
    );
}

fn check_limit(rt: &impl Abort, alloc: Global, mut input: &[u8], error: CommandError) {
    let mut written = Vec::new(alloc);
    let answer = frontier(alloc, &mut input, &mut written);
    assert_eq!(rt; (answer, written.len()), (Err(error), 0));
}
