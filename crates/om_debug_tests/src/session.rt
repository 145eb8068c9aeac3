//! A process of a record under gdb's packets.

ghost use Rattle.std.specs.Prelude.{◌≡◌, All, IfOk, length};
ghost use Rattle.om_world.specs.Holds.{Holds};
ghost use Rattle.om_world.specs.World.{IsEmpty, IsKnown};

use om_debug::Debugger;
use om_inferiors::{Shown, serve};
use om_interval::Pid;
use om_isa::Ext;
use om_process::{Image, StartFault};
use om_stable::MemStable;
use om_timeline::Timeline;
use om_world::{Event, World};
use std::alloc::{AllocError, Global};
use std::process::Abort;

// Puts 1 into a0, and then adds 1 to it without end: addi a0, zero, 1; addi a0, a0, 1; jal zero, -4.
static COUNTS: [u32; 3] = [0x0010_0513, 0x0015_0513, 0xffdf_f06f];

// Each packet as gdb writes it, with sums that were computed apart.
static ASKED: &str =
    "$QStartNoAckMode#b0$?#3f$g#67$Z0,8,4#4e$vCont;c#a8$g#67$m4,4#01$z0,8,4#6e$vCont;s:1;c#c1$g#67$bs#d5$g#67$vCont;r8,c:1;c#87$g#67$vCont;c#a8$g#67$Z0,8,4#4e$bc#c5$g#67$z0,8,4#6e$bc#c5$g#67$bs#d5$X8,4:#2a$vMustReplyEmpty#3a$D#44";

// The answers, by what the three instructions do: a0 and pc stand in the words of g.
static ANSWERED: &str =
    "+$OK#9a$T05thread:1;#d7$000000000000000000000000000000000000000000000000000000000000000000000000000000000000000000000000000000000000000000000000000000000000000000000000000000000000000000000000000000000000000000000000000000000000000000000000000000000000000000000000000000000000000000000000#80$OK#9a$T05thread:1;swbreak:;#3b$000000000000000000000000000000000000000000000000000000000000000000000000000000000200000000000000000000000000000000000000000000000000000000000000000000000000000000000000000000000000000000000000000000000000000000000000000000000000000000000000000000000000000008000000#8a$13051500#8f$OK#9a$T05thread:1;#d7$000000000000000000000000000000000000000000000000000000000000000000000000000000000200000000000000000000000000000000000000000000000000000000000000000000000000000000000000000000000000000000000000000000000000000000000000000000000000000000000000000000000000000004000000#86$T05thread:1;#d7$000000000000000000000000000000000000000000000000000000000000000000000000000000000200000000000000000000000000000000000000000000000000000000000000000000000000000000000000000000000000000000000000000000000000000000000000000000000000000000000000000000000000000008000000#8a$T05thread:1;#d7$000000000000000000000000000000000000000000000000000000000000000000000000000000000200000000000000000000000000000000000000000000000000000000000000000000000000000000000000000000000000000000000000000000000000000000000000000000000000000000000000000000000000000004000000#86$T05thread:1;replaylog:end;#52$000000000000000000000000000000000000000000000000000000000000000000000000000000000600000000000000000000000000000000000000000000000000000000000000000000000000000000000000000000000000000000000000000000000000000000000000000000000000000000000000000000000000000008000000#8e$OK#9a$T05thread:1;swbreak:;#3b$000000000000000000000000000000000000000000000000000000000000000000000000000000000500000000000000000000000000000000000000000000000000000000000000000000000000000000000000000000000000000000000000000000000000000000000000000000000000000000000000000000000000000008000000#8d$OK#9a$T05thread:1;replaylog:begin;#20$000000000000000000000000000000000000000000000000000000000000000000000000000000000000000000000000000000000000000000000000000000000000000000000000000000000000000000000000000000000000000000000000000000000000000000000000000000000000000000000000000000000000000000000000#80$T05thread:1;replaylog:begin;#20$E01#a6$#00$OK#9a";

// Puts 7 into a0, and then again and again writes it to address 32 and reads it into a1:
// addi a0, zero, 7; sw a0, 32(zero); lw a1, 32(zero); jal zero, -8.
static WRITES: [u32; 4] = [0x0070_0513, 0x02a0_2023, 0x0200_2583, 0xff9f_f06f];

// Watchpoints of writes, reads and both, forward and back, and where the process stands then. Nothing stops it beside the bytes. A step back
// over a write of what is watched is told, and does not move; one to a breakpoint is told too.
static WATCHED: &str =
    "$QStartNoAckMode#b0$Z2,20,4#7a$vCont;c#a8$qRcmd,7768657265#3e$m20,4#2f$vCont;c#a8$z2,20,4#9a$vCont;s:1;c#c1$m20,4#2f$Z3,20,4#7b$vCont;c#a8$qRcmd,7768657265#3e$z3,20,4#9b$Z4,23,1#7c$vCont;c#a8$qRcmd,7768657265#3e$z4,23,1#9c$Z2,24,4#7e$Z2,1c,4#ac$Z3,24,1#7c$vCont;c#a8$qRcmd,7768657265#3e$z2,24,4#9e$z2,1c,4#cc$z3,24,1#9c$Z2,20,4#7a$bc#c5$qRcmd,7768657265#3e$bs#d5$z2,20,4#9a$bs#d5$Z2,20,4#7a$qRcmd,7768657265#3e$bc#c5$qRcmd,7768657265#3e$bc#c5$qRcmd,7768657265#3e$Z0,c,4#79$z2,20,4#9a$bs#d5$Z2,20,4#7a$bc#c5$qRcmd,7768657265#3e$Z0,8,4#4e$bs#d5$z0,8,4#6e$z2,20,4#9a$z0,c,4#99$bc#c5$qRcmd,7768657265#3e$k#6b";

static WATCHED_ANSWERS: &str =
    "+$OK#9a$OK#9a$T05thread:1;watch:20;#c5$6576656e742030206f6620313a2072756e20302031302c203120696e737472756374696f6e7320646f6e650a703a2072656164792c203120696e737472756374696f6e730a#3e$00000000#80$T05thread:1;watch:20;#c5$OK#9a$T05thread:1;#d7$07000000#87$OK#9a$T05thread:1;rwatch:20;#37$6576656e742030206f6620313a2072756e20302031302c203220696e737472756374696f6e7320646f6e650a703a2072656164792c203220696e737472756374696f6e730a#40$OK#9a$OK#9a$T05thread:1;awatch:23;#29$6576656e742030206f6620313a2072756e20302031302c203220696e737472756374696f6e7320646f6e650a703a2072656164792c203220696e737472756374696f6e730a#40$OK#9a$OK#9a$OK#9a$OK#9a$T05thread:1;replaylog:end;#52$6576656e742031206f6620310a703a2072656164792c20313020696e737472756374696f6e730a#8b$OK#9a$OK#9a$OK#9a$OK#9a$T05thread:1;watch:20;#c5$6576656e742030206f6620313a2072756e20302031302c203820696e737472756374696f6e7320646f6e650a703a2072656164792c203820696e737472756374696f6e730a#4c$T05thread:1;watch:20;#c5$OK#9a$T05thread:1;#d7$OK#9a$6576656e742030206f6620313a2072756e20302031302c203720696e737472756374696f6e7320646f6e650a703a2072656164792c203720696e737472756374696f6e730a#4a$T05thread:1;watch:20;#c5$6576656e742030206f6620313a2072756e20302031302c203520696e737472756374696f6e7320646f6e650a703a2072656164792c203520696e737472756374696f6e730a#46$T05thread:1;watch:20;#c5$6576656e742030206f6620313a2072756e20302031302c203520696e737472756374696f6e7320646f6e650a703a2072656164792c203520696e737472756374696f6e730a#46$OK#9a$OK#9a$T05thread:1;#d7$OK#9a$T05thread:1;swbreak:;#3b$6576656e742030206f6620313a2072756e20302031302c203320696e737472756374696f6e7320646f6e650a703a2072656164792c203320696e737472756374696f6e730a#42$OK#9a$T05thread:1;swbreak:;#3b$OK#9a$OK#9a$OK#9a$T05thread:1;replaylog:begin;#20$6576656e742030206f6620313a2072756e20302031302c203020696e737472756374696f6e7320646f6e650a703a2072656164792c203020696e737472756374696f6e730a#3c$OK#9a";

// A failure, what is shown behind it, and ways to events.
static FAILED: &str =
    "$QStartNoAckMode#b0$vCont;c#a8$qRcmd,7768657265#3e$qRcmd,6576656e7473#d6$vCont;c#a8$bs#d5$qRcmd,7768657265#3e$qRcmd,676f746f2030#f8$qRcmd,676f746f2037#ff$D#44";

static FAILED_ANSWERS: &str =
    "+$OK#9a$T20thread:1;#d4$6576656e742032206f6620333a2072756e203020342c203020696e737472756374696f6e7320646f6e650a703a20646f776e2c203320696e737472756374696f6e730a#dd$202020302072756e203020330a20202031206661696c20300a3d3e20322072756e203020340a#7d$T05thread:1;replaylog:end;#52$T05thread:1;#d7$6576656e742031206f6620333a206661696c20302c203020696e737472756374696f6e7320646f6e650a703a2072656164792c203320696e737472756374696f6e730a#84$6576656e742030206f6620333a2072756e203020332c203020696e737472756374696f6e7320646f6e650a703a2072656164792c203020696e737472756374696f6e730a#dd$6576656e742033206f6620330a703a20646f776e2c203320696e737472756374696f6e730a#28$OK#9a";

// Two wrong sums; a number that overflows; memory at its end, and across it; an unknown packet; threads that are not there; a breakpoint
// of no kind; a register that is to be written; a wish to stop; bytes between packets; a packet that begins anew; and an end in the middle.
static BAD: &str =
    "$g#68$g#6x$m0,100000000#7a$m40,1#2e$m3e,4#65$vFoo#9a$Hg7#e6$T2#86$Z9,0,4#4f$P0=00000000#3d\x03xyz$?$?#3f$g#";

static BAD_ANSWERS: &str =
    "--+$E01#a6+$E01#a6+$0000#c0+$#00+$E01#a6+$E01#a6+$#00+$E01#a6$T02thread:1;#d4+$T05thread:1;#d7";

fn image(alloc: Global, words: &[u32]) -> Result<Image, AllocError> {
    let mut bytes = Vec::new(alloc);
    for word in words {
        bytes.extend_from_slice(&word.to_le_bytes())?;
    }
    Ok(Image {
        bytes,
        size: 64,
        ext: Ext::I,
    })
}

fn images(alloc: Global, words: &[u32]) -> Result<Vec<Image>, AllocError>
    ensures { IfOk result (λ images. length images.items ≡ 1) }
{
    let mut images = Vec::with_capacity(alloc, 1)?;
    images.push_reserved(image(alloc, words)?);
    Ok(images)
}

fn stores(alloc: Global) -> Result<Vec<MemStable>, AllocError>
    ensures number { IfOk result (λ stores. length stores.items ≡ 1) }
    ensures empty { IfOk result (λ stores. All IsEmpty stores.items) }
{
    let mut stores = Vec::with_capacity(alloc, 1)?;
    stores.push_reserved(MemStable::new(alloc));
    Ok(stores)
}

// The world of one process of these words at its start.
fn begin(alloc: Global, words: &[u32]) -> Result<World<MemStable>, StartFault>
    ensures known { IfOk result (λ world. IsKnown world) }
    ensures holds { IfOk result (λ world. Holds world) }
{
    let images = images(alloc, words)?;
    let stores = stores(alloc)?;
    match World::start(alloc, &images, stores) {
        Ok(world) => Ok(world),
        Err(fault) => Err(fault),
    }
}

// The process p of these words, to which these events happen, as gdb sees it.
fn debugger(rt: &impl Abort, alloc: Global, words: &[u32], events: &[Event]) -> Debugger {
    let world = begin(alloc, words).expect(rt, "a world");
    let events = Vec::from_slice(alloc, events).expect(rt, "memory");
    let timeline = Timeline::new(alloc, world, events, Pid::at(0))
        .expect(rt, "memory")
        .expect(rt, "a process");
    Debugger::new(alloc, timeline, "p").expect(rt, "memory")
}

fn check(
    rt: &impl Abort,
    alloc: Global,
    words: &[u32],
    events: &[Event],
    asked: &str,
    answered: &str,
) {
    let mut written = Vec::new(alloc);
    let debugger = debugger(rt, alloc, words, events);
    let served = serve(
        alloc,
        Shown::One(debugger),
        &mut asked.as_bytes(),
        &mut written,
    );
    assert!(rt; served.is_ok());
    assert_eq!(rt; written.as_slice(), answered.as_bytes());
}

static TEN: [Event; 1] = [Event::Run {
    process: 0,
    fuel: 10,
}];

#[test]
fn forward_and_back(rt: HostRuntime) {
    check(&rt, rt.alloc(), &COUNTS, &TEN, ASKED, ANSWERED);
}

#[test]
fn watchpoints(rt: HostRuntime) {
    check(&rt, rt.alloc(), &WRITES, &TEN, WATCHED, WATCHED_ANSWERS);
}

#[test]
fn bad_packets(rt: HostRuntime) {
    check(&rt, rt.alloc(), &COUNTS, &TEN, BAD, BAD_ANSWERS);
}

static FAILS: [Event; 3] = [
    Event::Run {
        process: 0,
        fuel: 3,
    },
    Event::Fail { process: 0 },
    Event::Run {
        process: 0,
        fuel: 4,
    },
];

#[test]
fn failures(rt: HostRuntime) {
    check(&rt, rt.alloc(), &COUNTS, &FAILS, FAILED, FAILED_ANSWERS);
}
