//! What the help of a command says after its options.

/// What `words` prints and reports, and its exit statuses.
pub(crate) const WORDS_ENDS: &str = "\
Prints `xN VVVVVVVV` for each of the 32 registers, `pc VVVVVVVV`, and how the processor stopped: `halt HH`
(HH in hex) or `fault N`. `budget` is reported if a million instructions have retired and it still runs.

Exit status: 0 done, 1 a fault stopped the processor, 2 a refused line (`ultra: V1`, with its number) or
command line, 3 FILE or standard output failed (`link`), 4 out of memory, or the budget is used up.";

/// What `check` prints, and its exit statuses.
pub(crate) const CHECK_ENDS: &str = "\
Lists every mistake of the text: its line, its column, its code as `ultra asm` reports it (A1 to A6), the wrong
word, and what would be right there. The last line says how many mistakes there are. Writes nothing.

With --course the text may have the pseudo-instructions, forms and directives of RISC-V textbooks. A line with
these is rewritten to plain lines (docs/ASSEMBLER.md, \"Course texts\"), and named by its first word.

Exit status: 0 the text has no mistake, 1 it has mistakes, 2 a refused command line, 3 FILE cannot be opened or
read or is not UTF-8, or standard output cannot be written (`link`), 4 out of memory.";

/// What `asm` reports, and its exit statuses.
pub(crate) const ASM_ENDS: &str = "\
The first mistake is reported on standard error, as `ultra: A3 line 2`, and OUT is not opened: A1 unknown
first word, A2 form, A3 number out of range or place not divisible by 4, A4 label twice, A5 label
missing, A6 section full, each with its line. `ultra check FILE` lists all mistakes of a text.

With --course the text may have the pseudo-instructions, forms and directives of RISC-V textbooks. A line with
these is rewritten to plain lines (docs/ASSEMBLER.md, \"Course texts\"); a mistake has the line of FILE.

--symbols writes a line for each label to MAP, by address, as `0001000c 00000008 t loop`: its address, its
size, `t` in code or `d` in data, and its name. MAP is opened after OUT is written.

Exit status: 0 done, 2 a mistake of the text or a refused command line, 3 FILE cannot be read or is not
UTF-8 (`link`), OUT cannot be written (`I9`) or MAP cannot be written (`link`), 4 out of memory.";

/// What `dis` prints and reports, and its exit statuses.
pub(crate) const DIS_ENDS: &str = "\
Each line is an address, the word there and its instruction, as `00010000 00100073 ebreak`, or `-` if
the word is no instruction. With --comments ` # lr.w` or ` # sc.w` follows if it is one of these two, by
which other machines make compare-and-swap; `ultra explain 1` says what to use instead.

Exit status: 0 done, 2 a refused image (`ultra: I1` to `I8`) or command line, 3 FILE cannot be opened
(`link`) or read (`I9`) or standard output cannot be written (`link`), 4 out of memory.";

/// How `run` goes, what it prints and reports, and its exit statuses.
pub(crate) const RUN_ENDS: &str = "\
Each processor runs on a thread of its own until it stops. A thread goes through at most --budget
rounds. In each it takes up to 64 instructions that refer to no shared word, which no other thread can
see, then a turn of its processor, and then a step of the network, chosen by a random number generator
that starts from --start. Which thread comes first is up to this computer, so another run may give
another result, one that the sweep never gives. A saved trace replays to the same report. A processor
may starve: fairness is not promised.

A run, with or without --sweep, is one schedule of many, and says nothing of the others: `ultra hunt`
tries many schedules, and `ultra explore` finds every result of a small program.

With --sweep one thread takes all steps. In each round every processor takes a turn, then the requests
move on towards the memory modules, each module serves one, and the replies move back. So every run
gives the same result. It ends if a fault stops a processor, if no processor runs, or after --budget
steps that did something, 4000000 at most (also for its default of 10000000); then the messages still
in the network are drained. --start has no effect. With --b 0 the sweep is not fair: a processor can
starve while the network is full.

With --no-log too, the steps are not kept. The report is the same, and the run may take 4000000000
steps, but no trace of it can be written.

With --unfinished a run that uses up its budget is drained and reported like another one, and its trace
is written. Then `budget` is reported, and the exit status is 4.

The report has a line for each processor, `processor P pc VVVVVVVV STATUS retired N console HEX`:
its number, its pc in hex, `run`, `halt HH` (HH is what it halted with, in hex) or `fault N`, how
many instructions it has retired, and the bytes it sent to the console in hex, or `-` for none.
Then `word I VVVVVVVV` is shared word I in hex, for each that is not zero.

An error is reported on standard error, and then there is no report: `ultra: I1` to `I8` a refused
image, `K1` a size out of the machine's limits, `budget` used up while a processor runs, unless it is
reported with --unfinished, `L2` more than 4194304 steps on threads, `L4` a core on loan not taken back,
`Start` a thread cannot be started, `link` FILE cannot be opened or standard output cannot be written,
`I9` FILE cannot be read, `X5` OUT cannot be written, `memory`.

Exit status: 0 done, 1 a fault stopped a processor, 2 a refused image or command line, 3 a file or
standard output failed, 4 out of memory, no room for the steps, no thread, or the budget is used up.";

/// How `replay` goes, what it prints and reports, and its exit statuses.
pub(crate) const REPLAY_ENDS: &str = "\
The machine has the k, c, b and r of TRACE, and takes its steps in their order. Then the messages still
in the network are drained, and the report is printed as by `ultra run`:
`processor P pc VVVVVVVV STATUS retired N console HEX` for each processor, and `word I VVVVVVVV` for
each shared word that is not zero.

An error is reported on standard error, and then there is no report: `ultra: X1` TRACE is cut short, `X2`
its header is refused, `X3` a record is refused, `X4` bytes follow the last record, `X7 step N` step N,
from 0, stalls on this machine; `I1` to `I8` a refused image, `K1` a size out of the machine's limits;
`link` a file cannot be opened or standard output cannot be written, `X5` TRACE or `I9` FILE cannot be
read, `memory`.

Exit status: 0 done, 1 a fault stopped a processor, 2 a refused trace, image or command line, 3 a
file or standard output failed, 4 out of memory.";

/// What `explain` takes and prints, and its exit statuses.
pub(crate) const EXPLAIN_ENDS: &str = "\
CODE is what is printed on standard error, as `ultra: A3 line 2`, `A3 line 2` or `A3` alone; a fault in a
report, as `fault 4`, or its number alone; an error of the debugger, as `E01`; or a page: `calls`, the
environment calls of a program, and `memory-map`, the addresses that it sees. Case does not matter, and
quotes around it make no difference.

Exit status: 0 done, 2 nothing has that name, or a refused command line, 3 standard output cannot be
written (`link`), 4 out of memory.";

/// What `order` prints, and its exit statuses.
pub(crate) const ORDER_ENDS: &str = "\
Takes the steps as `ultra replay` does, and prints the run as if whole instructions had been taken one
after another, with no network between processors and memory. The order of references to a shared word
is that of its module; combined references follow one another.

A line is `N P ADDRESS INSTRUCTION`: its number from 0, the processor, the instruction's address and its
text. After it there may be ` = V`, the value that its register got, ` console HH`, the byte for the
console, and ` word I BEFORE AFTER`, the shared word that it acted on. If the processor stops, the line
ends with `halt HH` or `fault N`. A write from outside is `N P poke PLACE VALUE`, with `-` for P if it
is to shared memory. Lines keep their numbers if options leave others out. If there is no line from --from
to --to, nothing is printed.

Errors are reported on standard error as by `ultra replay`, and then nothing is printed.

Exit status: 0 done, 1 a fault stopped a processor, 2 a refused trace, image or command line, 3 a
file or standard output failed, 4 out of memory.";

/// How a session of `debug` goes, and its exit statuses.
pub(crate) const DEBUG_ENDS: &str = "\
Prints `listening PORT` once a debugger can connect, and serves one connection. Each line from the
debugger is a command; `ultra` does what it asks for, and then answers it with one line. Any program
that sends lines will do, such as `nc 127.0.0.1 3333`. A dialogue, with the debugger's lines after `>`:

    > break 10004          stop before the instruction at 0x00010004
    ok
    > cont                 go on by the sweep
    at 0
    > reg 0 20             the pc (20) of processor 0
    00010004
    > step 0               one whole instruction of processor 0
    at 0
    > mem 0 80000000 4     four bytes, as processor 0 sees them
    01000000
    > write 0 80000000 2a  write a byte there
    ok
    > quit
    ok

The commands: `state P`, `regs P`, `reg P R`, `set P R V`, `mem P ADDR LEN`, `write P ADDR DIGITS`, `break
ADDR`, `clear ADDR`, `step P`, `cont`, `quit`, with one space between words; numbers are hex. A command
that is refused is answered by its error: `E01` form, `E02` address, `E03` processor, `E04` register,
`E05` no room in the trace, `E06` out of memory. `cont` asks for room for all of --budget before it
begins, so after long runs it is refused (`E05`): a smaller --budget lets it run for longer.

Any program on this computer may connect, and the first connection gets the session. With --stdio there
is no connection: lines come from standard input, and answers go to standard output. With --trace the
steps of the session, and what the debugger wrote, are saved when it is over, however it ended.

Exit status: 0 done, 1 a fault had stopped a processor at the end, 2 a refused image or command line,
3 FILE or the connection failed (`link`) or OUT cannot be written (`X5`), 4 out of memory, or no room in
the trace (`L2`).";

/// What `story` prints, and its exit statuses.
pub(crate) const STORY_ENDS: &str = "\
Takes the steps as `ultra replay` does, and prints a line for each that says what the machine did: a
request was issued, moved from switch to switch or was combined with another, a module served a word, a
reply moved back, an instruction retired, a processor stopped, or a write came from outside. A line also
tells the function of a request, as `add 00000002`, what goes on and what is kept of two that are combined,
the word that is served with its value before and after, and the values that a split reply brings.

With --processor these are the turns and writes of the processor, and the steps of the message that stands
for it, alone or combined with others. With --word they are the steps of references to the word, and writes
to it. With --network turns and writes are left out. Lines keep their numbers if options leave others out.

With --rounds a line `round N` stands before the first of the printed steps of each round of the sweep, N
from 1. A write from outside is of no round. For other schedules these are the fewest rounds of the sweep
that take the steps in their order, as `ultra stats` counts them.

Errors are reported on standard error as by `ultra replay`, and then nothing is printed.

Exit status: 0 done, 1 a fault stopped a processor, 2 a refused trace, image or command line, 3 a
file or standard output failed, 4 out of memory.";

/// What `stats` prints, and its exit statuses.
pub(crate) const STATS_ENDS: &str = "\
Takes the steps as `ultra replay` does, and counts: for each stage of the network the requests that
moved on and those that were combined, for each module the references that it served and for how many
processors, for each processor its instructions.

With --latency there are also lines for all references, and for those of each processor and each
shared word: how many they are, the least, the mean and the greatest number of rounds from sending a
request to retiring its instruction, and as `8x5` that five references took from 8 to 15 rounds.

With --queues there is a line for each round and each stage where anything waits at its end: how many
requests, records and replies; and then for each stage how many rounds all of them waited there. With
--csv only a table of the same is printed: round,stage,requests,records,replies.

Errors are reported on standard error as by `ultra replay`, and then nothing is printed.

Exit status: 0 done, 1 a fault stopped a processor, 2 a refused trace, image or command line, 3 a
file or standard output failed, 4 out of memory.";

/// What `picture` prints, and its exit statuses.
pub(crate) const PICTURE_ENDS: &str = "\
The steps are those of `ultra story`: the trace's, and then those that drain the network. The machine is
drawn after the first N of them, or after all if there are fewer, so `--step N` shows the machine in
which line N of the story happens. From left to right stand the processors, the stages of switches and
the modules. A request shows its function, its word and the processors that it stands for, the leader
first; a wait record who waits for whom, and what it then does to the value; a reply its value. Of more
than 8 processors a summary is drawn. With --symbols a word or a `pc` with a name is drawn as `LABEL` or
`LABEL+0xHEX`, of which a long LABEL is cut. `ultra picture TRACE FILE > FILE.svg` writes a file that
browsers show.

Errors are reported on standard error as by `ultra replay`, and then nothing is printed.

Exit status: 0 done, 1 a fault has stopped a processor of the machine drawn, 2 a refused trace, image or
command line, 3 a file or standard output failed, 4 out of memory.";

/// What `page` prints, and its exit statuses.
pub(crate) const PAGE_ENDS: &str = "\
Writes one file for a browser, which needs no network: `ultra page TRACE FILE > FILE.html`. The steps are
those of `ultra story`. The page shows the machine before and after each of them, as `ultra picture`
does, and beside it the registers, the words, the lines of the story and those of `ultra order`. It plays
them, goes to a step, and to the next combination, service or stop; `FILE.html#step=43` opens at step 43.
A key for each is listed under `?`. With --symbols words and program counters are shown by their names.

With --from N the page begins with step N, and with --steps M it has at most M steps. Steps keep their
numbers. A trace of more than 500000 steps is refused without --steps, if as many follow step N.

Errors are reported on standard error as by `ultra replay`, and then nothing is printed.

Exit status: 0 done, 1 a fault stopped a processor, 2 a refused trace, image or command line, 3 a
file or standard output failed, 4 out of memory.";

/// What `study` prints, and its exit statuses.
pub(crate) const STUDY_ENDS: &str = "\
Runs FILE as `ultra run --sweep` does, for each k, then each b, then each r, and counts the steps of each
run, with those that drain the network, as `ultra stats --latency` counts them. The columns:

    k, b, r, processors   the size of the machine
    end                   over, fault (one stopped a processor) or budget (used up: figures so far)
    steps, rounds         the steps, and the rounds of the sweep in which they were taken
    references            the references that were retired
    serve, combined       services of the modules; requests that were combined, at all stages
    requests, records, replies   the longest queue of requests, wait buffer and queue of replies
    mean                  the mean latency of a reference in rounds, rounded down to hundredths

A LIST has numbers and ranges with commas between them; both ends of a range belong to it. Its numbers
ascend, so each is there once. --plot takes the name of a column but `end`, and draws a line for each b
and r. `ultra study FILE --b 0,4 --plot steps > FILE.svg` writes a file that browsers show.

A size that the machine does not have is reported before any run (`ultra: K1`); other errors as by
`ultra run`, and then nothing is printed.

Exit status: the greatest of all runs, 0 over, 1 a fault stopped a processor, 4 the budget is used up; or
2 a refused image, size or command line, 3 a file or standard output failed, 4 out of memory.";

/// What `trace` prints, and its exit statuses.
pub(crate) const TRACE_ENDS: &str = "\
The first line is the machine's size, `machine k K c C b B r R`. Then comes a line for each step, as
`ultra story` names steps: `turn P`, `up S W` and `down S W` (stage, wire), `serve M`, or a write from
outside, `poke P xN VVVVVVVV`, `poke P pc VVVVVVVV`, `poke P AAAAAAAA HH` (local memory) or `poke -
AAAAAAAA HH` (shared memory). `ultra steps` makes the same trace of this text.

Exit status: 0 done, 2 a refused trace (`ultra: X1` to `X4`) or command line, 3 TRACE cannot be opened
(`link`) or read (`X5`) or standard output cannot be written (`link`), 4 out of memory.";

/// What `steps` takes and reports, and its exit statuses.
pub(crate) const STEPS_ENDS: &str = "\
The text is that of `ultra trace`, with any blanks between words, empty lines, and comments from `#` to
the end of a line. Numbers may also be written as `0x3F`, hex digits in either case, and registers by
their names, as `a0`.

The first mistake is reported on standard error, as `ultra: S2 line 3`, and OUT is not opened: S1 no
sizes of a machine, S2 no step, S3 a number out of its range on this machine, S4 more than 4194304
steps. S5 is a text of more than 256 MiB. Whether the machine can take the steps, `ultra replay` says.

Exit status: 0 done, 2 a mistake of the text or a refused command line, 3 FILE cannot be read (`link`)
or OUT cannot be written (`X5`), 4 out of memory.";

/// What `explore` prints, and its exit statuses.
pub(crate) const EXPLORE_ENDS: &str = "\
A result is what is left if no processor runs any more: where each stopped and why, what it printed, and
the shared words. `explore` finds every result that steps of the machine can give, and no other, so the
results do not depend on --c, --b or --r.

Processors that are in the same state at their first reference to shared memory stand for each other, if
no processor asks for its own number after that. Then one result is printed for all that differ from it
by an exchange of such processors, and a line says which can be exchanged. With --each none is exchanged
and every result is printed; the search may then find many more states.

Each result is printed once: `result N`, a line `processor P pc VVVVVVVV STATUS console HEX` for each
processor, and a line `word I VVVVVVVV` for each shared word that is not zero, all as in the report of
`ultra run`. Then come the processors that can be exchanged, if there are any, the number of results,
and the number of states between references to shared words. The last line is `every schedule ends`,
`some schedule never ends; an end can always be reached`, or `from N states no end can be reached`.

With --fair one more line is printed: `every fair schedule ends`, `some fair schedule never ends`, or, if
neither is known, `some fair schedule may never end`. A schedule is fair if each processor that runs takes
turns again and again. None is exchanged then. If some fair schedule never ends, lines `stem P P ..` and
`cycle P P ..` show one: the processors of the stem refer, one after another, and then those of the cycle,
again and again. With --trace OUT and no --witness the steps of the stem and one turn round the cycle are
written to OUT.

With --observe LIST a result has, of the shared words, only those in the list: numbers and ranges from 0
to 262143 with commas between them. Results that then are the same are one, and --witness N leads to the
first result of those that are printed as the Nth.

With --filter CONDITION only results that satisfy a condition are printed, as below with --never, with the
numbers that they have without it; a line such as `1 of 2 results is printed` comes after them. The search,
the other lines and the exit status stay the same. It excludes --every, --against, --never and the like.

With --against SPEC the results of the image SPEC are found too, on a machine of the same size. Printed are
those results of FILE that SPEC does not have, by their statuses, consoles and observed words, and not by pc;
and a last line such as `1 of 2 observed results is not among the 1 of SPEC`, or `all 2 observed results are
among the 3 of SPEC`. Alike processors are not exchanged, so the numbers are those of --each. It excludes
--every, --fair, --witness, --trace and --page.

With --every the machines of 1, 2, 4, 8, 16, 32 and 64 processors are explored one after another, and a
line is printed for each; --k has no effect. It excludes --fair, --witness, --trace and --page.

With --never CONDITION no result is printed, but `never CONDITION: holds`, or `never CONDITION: broken` and
the numbers of the processors that refer, one after another, on a shortest way to a state that satisfies
the condition. States are those between references: each processor has stopped, or is at its next reference
to a shared word. --always asks whether each state satisfies the condition, and --finally whether each does
in which no processor runs. If the property is broken, --trace OUT writes the steps to that state to OUT;
else OUT is not opened.

A condition has alternatives with `|` between them, each of parts with `&` between them. A part is `word N
OP V`; `at A OP V` or `at A-B OP V`, for the number of processors that run with a pc of A, or from A to B;
`running OP V`, `halted OP V` or `faulted OP V`; or `any fault`. OP is one of == != < <= > >=, and a number
is decimal, or hex after 0x. With --symbols FILE a name in FILE, or NAME+BYTES, can stand for A, B or N: for
its address, or for the shared word there. --never, --always and --finally exclude each other, --observe,
--filter, --against, --each, --fair, --every, --witness, --decimal and --json.

With --witness N and --trace OUT the steps of a path to result N are written to OUT, for a machine with
--c and --b: `ultra replay OUT FILE` prints the report of that result. With --witness 0 they lead to the
first of the states from which no end can be reached.

With --page OUT a page of such steps is written to OUT, with --trace or in its place: what `ultra page`
prints for their trace, with the names of --symbols. Of more than 500000 steps it shows the last.

If a search finds --states states, or takes longer than --seconds, it is given up. Then the results found
so far are printed, each of which the machine can give, and the last line is `incomplete: there may be more
results`; an error follows. With --never and the like a state found so far may break the property; if none
does, nothing is printed. With --every a line says that the size is not explored.

An error is reported on standard error, and but for this no result is printed: `ultra: I1` to `I8` a refused
image, `K1` a size out of the machine's limits, `states` at least --states states are found, `budget` the
search takes longer than --seconds, `alone` a processor takes a million instructions without a reference to
a shared word and without coming back to where it was, or, with --never and the like, comes back, so that a
verdict is not known, `link` FILE cannot be opened or standard output cannot be written, `I9` FILE cannot be
read, `X5` OUT cannot be written, `L2` a way of more than 4194304 steps, `memory`. If SPEC is at fault, a
second line has its name.

Exit status: 0 done, 1 in a result a fault has stopped a processor or from a state no end can be reached,
2 a refused image or command line, or there is no such witness or no cycle, 3 a file or standard output
failed, 4 out of memory, too many states, too little time, a processor alone for too long, or a path too
long. With --every it is the greatest of all sizes. With --against it is 1 if there is a result that SPEC
does not have, else 0.";

/// How `hunt` goes, what it prints, and its exit statuses.
pub(crate) const HUNT_ENDS: &str = "\
Runs are numbered from --start on. The number alone decides the schedule, so the same number gives the
same run. By --schedule random a run favours one processor for some turns and then another, and after about
half of the turns the messages in the network move on. A run whose number is divisible by 6 chooses a
processor for each turn; each of the others chooses half as often as the one before. By pct the processors
take their turns in a random order, and --depth less 1 times one of them loses its place to the others
(probabilistic concurrency testing). By sweep-like they take turns one after another, but some are passed
over. A run ends as that of `ultra run` does, or after --budget steps that did something or --budget turns;
then the network is drained.

Each different result is printed once, after a line `runs N first S over`, or `budget` for `over`: how
many runs gave it, and the number of the first. `ultra hunt FILE --runs 1 --start S` gives it again. Then
come `processor P pc VVVVVVVV STATUS console HEX` for each processor, and `word I VVVVVVVV` for each shared
word that is not zero, as `ultra run` prints them. Results that differ only in a pc are one, with the pc of
the first run. With --observe LIST a result has, of the shared words, only those in the list: numbers and
ranges from 0 to 262143 with commas between them. A result that is not found may still exist.

A run is unfinished if it has used up its budget while a processor runs, which may wait for ever. If there
are such runs, a last line `unfinished S S ..` has their numbers.

With --expect-one the exit status is 6 if the runs came to more than one result, unless it is 1 or 5.

The runs are taken by --jobs threads, or else by as many as the host has processors. Results are counted in
the order of the runs, so the number of threads changes nothing that is printed or written.

With --trace and --page nothing is written before all runs are over. If a file that would be written exists
then, none is written and no result is printed, unless --overwrite is given. A page is what `ultra page`
prints for the trace of the run, with the names of --symbols; of more than 500000 steps it shows the last.
Meanwhile a line on a terminal shows how many runs are over and how many results are found, unless --quiet
is given.

Errors are reported on standard error as by `ultra run`, and then no result is printed.

Exit status: 0 done, 1 a fault stopped a processor in a run, 2 a refused image or command line, 3 a
file or standard output failed, 4 out of memory, 5 no fault stopped a processor, but a run is unfinished,
6 neither, but with --expect-one there is more than one result.";
