//! What `--version` prints, and what help prints below the options: the lines of command files, examples, and the exit
//! statuses. `man/pktkit.1` has more.

/// The version, and the logic with which this source was proved: the last word of `rt version`, which is the same for
/// every build of the toolchain that proves by the same rules. A program can't know how it was built itself.
pub const VERSION: &str = "\
0.1.0
This source was proved with Rattle's logic dac8208d650f15bf.
A program that was built from it without proofs (make run, make try) prints this, too.";

/// Below the options of the program itself.
pub const PROGRAM: &str = "\
Without arguments, ring commands are read from standard input, one per line.

Examples:
  pktkit ring examples/first.ring
  printf 'ring exact 3\\nput burst a b\\n' | pktkit

Exit status:
  0  success, or help or the version was requested
  1  a fault, printed in one line on standard error
  2  this command line is refused, and no file was touched";

/// Below the options of `ring`.
pub const RING: &str = "\
Lines of FILE:
  ring power N      a new empty ring of N slots, for N - 1 items
  ring exact N      a new empty ring for exactly N items
  put bulk ITEM..   puts all the items, or none
  put burst ITEM..  puts as many as fit, starting with the first
  take bulk N       takes N items, or none
  take burst N      takes as many items as are queued, up to N
  count             prints how many items are queued, and how many more fit

Examples:
  pktkit ring examples/first.ring
  printf 'ring exact 3\\nput burst a b\\n' | pktkit ring /dev/stdin

Exit status:
  0  each line has its reply, or help was requested
  1  a fault, printed in one line on standard error; the lines before it have their replies
  2  this command line is refused, and no file was touched";

/// Below the options of `steps`.
pub const STEPS: &str = "\
First lines of FILE, the plan (MODE is multi or hts; two are for puts and for takes):
  ring power N MODE, ring exact N MODE   the next ring, from 0; with free after it: for free buffers
  actors N                               actors 0 to N - 1
  give A B..                             buffers that actor A holds at the start

Then steps (A an actor, R a ring, SIDE put or take, HOW bulk or burst):
  A look R SIDE            loads the own word of that side
  A room R SIDE            loads the tail of the other side
  A reserve R SIDE HOW N   reserves up to N positions
  A settle R put ITEM..    publishes items: xN is a number, bN+M.. carries buffers
  A settle R take K        takes the items of the first K positions
  A stash B, A unstash B   marks a buffer that A holds as cached, or unmarks it
  place B                  asks where a buffer is

Examples:
  pktkit steps examples/order.steps
  printf 'ring power 4 multi\\nactors 1\\n0 look 0 put\\n' | pktkit steps /dev/stdin

Exit status:
  0  each step has its reply, or help was requested
  1  a fault, printed in one line on standard error; the steps before it have their replies
  2  this command line is refused, and no file was touched";

/// Below the options of `run`.
pub const RUN: &str = "\
Examples:
  pktkit run --config examples/router.toml --in examples/traffic.pcap --out traffic
  pktkit run --config examples/router.toml --in examples/traffic.pcap --out traffic --workers auto
  zcat big.pcap.gz | pktkit run --config examples/router.toml --in - --out big --progress

Workers:
  N workers are N + 2 threads, each of which wants a processor of its own; with 0 there is one thread.
  auto takes 2 if the process may use four processors or more, 1 with three, otherwise 0.
  The bytes at the ports and the report are the same for every number.

Exit status:
  0  the report is on standard output and the files of the ports are complete, or help was requested
  1  a fault, printed in one line on standard error, at a terminal maybe with a hint below; there is no report
  2  this command line is refused, and no file was touched";
