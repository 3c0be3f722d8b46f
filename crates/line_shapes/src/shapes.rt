//! The shapes of the lines that commands print.

use crate::shape::Kind::{
    Byte, Bytes, Code, Count, Function, Is, List, Number, NumberOrNone, Text, Word, Words, Zero,
};
use crate::shape::Part::{self, Field, Literal};
use crate::shape::Shape;

// ---- a processor and its state

const PROCESSOR: Part = Field("processor ", "processor", Number);

const PC: Part = Field(" pc ", "pc", Word);

const RUN: Part = Field(" run", "status", Is("run"));

const HALT: Part = Field(" halt ", "status", Is("halt"));

const HALT_BYTE: Part = Field("", "byte", Byte);

const FAULT: Part = Field(" fault ", "status", Is("fault"));

const FAULT_NO: Part = Field("", "fault", Number);

const RETIRED: Part = Field(" retired ", "retired", Number);

const CONSOLE: Part = Field(" console ", "console", Bytes);

// ---- a shared word

const WORD: Part = Field("word ", "word", Number);

const HOLDS: Part = Field(" ", "value", Word);

// ---- a hunt

const RUNS: Part = Field("runs ", "runs", Number);

const FIRST: Part = Field(" first ", "first", Number);

const OVER: Part = Field(" over", "end", Is("over"));

const BUDGET: Part = Field(" budget", "end", Is("budget"));

const UNFINISHED: Part = Field("unfinished ", "runs", List);

// ---- every result

const RESULT: Part = Field("result ", "result", Number);

const EXCHANGED: Part = Field("processors ", "processors", Text);

const CAN_BE: Part = Literal(" can be exchanged");

const RESULTS: Part = Field("", "results", Count(" result"));

const STATES: Part = Field(", ", "states", Count(" state"));

const ALL: Part = Field("all ", "results", Count(" observed result"));

const IS_AMONG: Part = Field(" is among the ", "specification", Number);

const ARE_AMONG: Part = Field(" are among the ", "specification", Number);

const MISSING: Part = Field("", "missing", Number);

const OF_ALL: Part = Field(" of ", "results", Count(" observed result"));

const IS_NOT_AMONG: Part = Field(" is not among the ", "specification", Number);

const ARE_NOT_AMONG: Part = Field(" are not among the ", "specification", Number);

const OF_SPEC: Part = Literal(" of SPEC");

const PRINTED: Part = Field("", "printed", Number);

const OF_RESULTS: Part = Field(" of ", "results", Count(" result"));

const IS_PRINTED: Part = Literal(" is printed");

const ARE_PRINTED: Part = Literal(" are printed");

const ALWAYS: Part = Field("every schedule ends", "end", Is("always"));

const POSSIBLE: Part = Field(
    "some schedule never ends; an end can always be reached",
    "end",
    Is("possible"),
);

const INCOMPLETE: Part = Literal("incomplete: there may be more results");

const FAIR_ALWAYS: Part = Field("every fair schedule ends", "end", Is("always"));

const FAIR_NEVER: Part = Field("some fair schedule never ends", "end", Is("never"));

const FAIR_UNKNOWN: Part = Field("some fair schedule may never end", "end", Is("unknown"));

const STEM: Part = Field("stem ", "processors", List);

const NO_STEM: Part = Literal("stem");

const CYCLE: Part = Field("cycle ", "processors", List);

const FROM: Part = Field("from ", "end", Is("unreachable"));

const FROM_COUNT: Part = Field("", "from", Count(" state"));

const NO_END: Part = Literal(" no end can be reached");

const STAGES: Part = Field("k ", "k", Number);

const PROCESSORS: Part = Field(": ", "processors", Count(" processor"));

const FOUND: Part = Field(", ", "results", Count(" result"));

const AND: Part = Literal(", ");

const ITS_HALT: Part = Field(", halt ", "status", Is("halt"));

const ITS_FAULT: Part = Field(", fault ", "status", Is("fault"));

const ITS_NONE: Part = Field(", ", "status", NumberOrNone);

const UNEXPLORED: Part = Field(", not explored: ", "not_explored", Text);

// ---- counts of what steps did

const K: Part = Field("machine k ", "k", Number);

const C: Part = Field(" c ", "c", Number);

const B: Part = Field(" b ", "b", Number);

const R: Part = Field(" r ", "r", Number);

const STEPS: Part = Field("steps ", "steps", Number);

const TURNS: Part = Field(" turns ", "turns", Number);

const UP: Part = Field(" up ", "up", Number);

const SERVE: Part = Field(" serve ", "serve", Number);

const DOWN: Part = Field(" down ", "down", Number);

const POKE: Part = Field(" poke ", "poke", Number);

const ROUNDS: Part = Field(" rounds ", "rounds", Number);

const STAGE: Part = Field("stage ", "stage", Number);

const COMBINED: Part = Field(" combined ", "combined", Number);

const SPLIT: Part = Field(" split ", "split", Number);

const REQUESTS: Part = Field(" requests ", "requests", Number);

const RECORDS: Part = Field(" records ", "records", Number);

const REPLIES: Part = Field(" replies ", "replies", Number);

const MODULE: Part = Field("module ", "module", Number);

const SERVES: Part = Field(" serves ", "serves", Number);

const GROUPS: Part = Field(" ", "groups", List);

// ---- latencies

const OF_STAGE: Part = Field(" stage ", "stage", Number);

const WAITED: Part = Field("waited stage ", "stage", Number);

const LATENCY_OF_ALL: Part = Literal("latency all");

const LATENCY_OF_PROCESSOR: Part = Field("latency processor ", "processor", Number);

const LATENCY_OF_WORD: Part = Field("latency word ", "word", Number);

const REFERENCES: Part = Field(" references ", "references", Number);

const LEAST: Part = Field(" least ", "least", Number);

const MEAN: Part = Field(" mean ", "mean", Number);

const GREATEST: Part = Field(" greatest ", "greatest", Number);

const ROUNDS_TAKEN: Part = Field(" rounds ", "rounds", List);

// ---- a study

const OF_K: Part = Field("k ", "k", Number);

const MACHINES: Part = Field(" processors ", "processors", Number);

const END: Part = Field(" end ", "end", Text);

const ITS_STEPS: Part = Field(" steps ", "steps", Number);

// ---- a serial order

const NUMBER: Part = Field("", "number", Number);

const TAKER: Part = Field(" ", "processor", Number);

const ADDRESS: Part = Field(" ", "address", Word);

const INSN: Part = Field(" ", "instruction", Text);

const GIVES: Part = Field(" = ", "value", Word);

const PRINTS: Part = Field(" console ", "console", Byte);

const ON_WORD: Part = Field(" word ", "word", Number);

const BEFORE: Part = Field(" ", "before", Word);

const AFTER: Part = Field(" ", "after", Word);

const OWNER: Part = Field(" ", "processor", NumberOrNone);

const POKES_BYTE: Part = Field(" poke ", "address", Word);

const POKES_REG: Part = Field(" poke ", "register", Text);

const NEW_BYTE: Part = Field(" ", "value", Byte);

const NEW_WORD: Part = Field(" ", "value", Word);

// ---- a story

const ROUND: Part = Field("round ", "round", Number);

const A_TURN: Part = Field(" turn ", "step", Is("turn"));

const AN_UP: Part = Field(" up ", "step", Is("up"));

const A_DOWN: Part = Field(" down ", "step", Is("down"));

const A_SERVE: Part = Field(" serve ", "step", Is("serve"));

const A_POKE: Part = Field(" poke ", "step", Is("poke"));

const TURN_OF: Part = Field("", "processor", Number);

const ITS_STAGE: Part = Field("", "stage", Number);

const ITS_WIRE: Part = Field(" ", "wire", Number);

const ITS_MODULE: Part = Field("", "module", Number);

const ITS_OWNER: Part = Field("", "processor", NumberOrNone);

const REGISTER: Part = Field(" ", "register", Text);

const SENDS: Part = Field(": sends", "outcome", Is("sends"));

const ITS_FUNCTION: Part = Field(" ", "function", Function);

const TO_WORD: Part = Field(" to word ", "word", Number);

const RETIRES: Part = Field(": retires ", "outcome", Is("retires"));

const ITS_INSN: Part = Field("", "instruction", Text);

const STOPS: Part = Field(": stops", "outcome", Is("stops"));

const MOVES: Part = Field(": moves to depth ", "outcome", Is("moves"));

const DEPTH: Part = Field("", "depth", Number);

const JOINS: Part = Field(": ", "outcome", Is("joins"));

const SECOND: Part = Field("", "second", Number);

const LEADER: Part = Field(" joins ", "leader", Number);

const AT_STAGE: Part = Field(" at stage ", "at_stage", Number);

const GOES_ON: Part = Field(": ", "goes_on", Function);

const KEPT: Part = Field(" goes on, ", "kept", Function);

const IS_KEPT: Part = Literal(" is kept");

const SERVES_ALL: Part = Field(": serves ", "outcome", Is("serves"));

const SERVED: Part = Field("", "served", Number);

const ALL_SERVED: Part = Field(": ", "processors", List);

const SERVED_WORD: Part = Field(": word ", "word", Number);

const TO: Part = Field(" to ", "after", Word);

const ANSWERS: Part = Field(": answers ", "outcome", Is("answers"));

const LEADERS: Part = Field("", "leaders", List);

const VALUES: Part = Field(": ", "values", Words);

const WRITES: Part = Field(": writes", "outcome", Is("writes"));

// ---- faults of a text

const LINE: Part = Field("line ", "line", Number);

const COLUMN: Part = Field(" column ", "column", Number);

const CODE: Part = Field(": ", "code", Code);

const FAULTY: Part = Field(" ", "word", Text);

const ADVICE: Part = Field(": ", "advice", Text);

const FAULTS: Part = Field("", "faults", Count(" fault"));

const NO_FAULTS: Part = Field("no faults", "faults", Zero);

// ---- the code of an image

const AT: Part = Field("", "address", Word);

const ENCODING: Part = Field(" ", "encoding", Word);

const NO_INSN: Part = Literal(" -");

const COMMENT: Part = Field(" # ", "comment", Text);

// ---- the lines of each command

static REPORT_SHAPES: [Shape; 4] = [
    Shape("processor", &[PROCESSOR, PC, RUN, RETIRED, CONSOLE]),
    Shape(
        "processor",
        &[PROCESSOR, PC, HALT, HALT_BYTE, RETIRED, CONSOLE],
    ),
    Shape(
        "processor",
        &[PROCESSOR, PC, FAULT, FAULT_NO, RETIRED, CONSOLE],
    ),
    Shape("word", &[WORD, HOLDS]),
];

static HUNT_SHAPES: [Shape; 7] = [
    Shape("processor", &[PROCESSOR, PC, RUN, CONSOLE]),
    Shape("processor", &[PROCESSOR, PC, HALT, HALT_BYTE, CONSOLE]),
    Shape("processor", &[PROCESSOR, PC, FAULT, FAULT_NO, CONSOLE]),
    Shape("word", &[WORD, HOLDS]),
    Shape("runs", &[RUNS, FIRST, OVER]),
    Shape("runs", &[RUNS, FIRST, BUDGET]),
    Shape("unfinished", &[UNFINISHED]),
];

static RESULTS_SHAPES: [Shape; 22] = [
    Shape("processor", &[PROCESSOR, PC, HALT, HALT_BYTE, CONSOLE]),
    Shape("processor", &[PROCESSOR, PC, FAULT, FAULT_NO, CONSOLE]),
    Shape("result", &[RESULT]),
    Shape("exchange", &[EXCHANGED, CAN_BE]),
    Shape("results", &[RESULTS, STATES]),
    Shape("schedules", &[ALWAYS]),
    Shape("schedules", &[POSSIBLE]),
    Shape("schedules", &[FROM, FROM_COUNT, NO_END]),
    Shape("incomplete", &[INCOMPLETE]),
    Shape("fairness", &[FAIR_ALWAYS]),
    Shape("fairness", &[FAIR_NEVER]),
    Shape("fairness", &[FAIR_UNKNOWN]),
    Shape("stem", &[STEM]),
    Shape("stem", &[NO_STEM]),
    Shape("cycle", &[CYCLE]),
    Shape("word", &[WORD, HOLDS]),
    Shape("comparison", &[ALL, IS_AMONG, OF_SPEC]),
    Shape("comparison", &[ALL, ARE_AMONG, OF_SPEC]),
    Shape("comparison", &[MISSING, OF_ALL, IS_NOT_AMONG, OF_SPEC]),
    Shape("comparison", &[MISSING, OF_ALL, ARE_NOT_AMONG, OF_SPEC]),
    Shape("filter", &[PRINTED, OF_RESULTS, IS_PRINTED]),
    Shape("filter", &[PRINTED, OF_RESULTS, ARE_PRINTED]),
];

static SIZES_SHAPES: [Shape; 10] = [
    Shape(
        "size",
        &[
            STAGES, PROCESSORS, FOUND, STATES, AND, ALWAYS, ITS_HALT, HALT_BYTE,
        ],
    ),
    Shape(
        "size",
        &[
            STAGES, PROCESSORS, FOUND, STATES, AND, ALWAYS, ITS_FAULT, FAULT_NO,
        ],
    ),
    Shape(
        "size",
        &[STAGES, PROCESSORS, FOUND, STATES, AND, ALWAYS, ITS_NONE],
    ),
    Shape(
        "size",
        &[
            STAGES, PROCESSORS, FOUND, STATES, AND, POSSIBLE, ITS_HALT, HALT_BYTE,
        ],
    ),
    Shape(
        "size",
        &[
            STAGES, PROCESSORS, FOUND, STATES, AND, POSSIBLE, ITS_FAULT, FAULT_NO,
        ],
    ),
    Shape(
        "size",
        &[STAGES, PROCESSORS, FOUND, STATES, AND, POSSIBLE, ITS_NONE],
    ),
    Shape(
        "size",
        &[
            STAGES, PROCESSORS, FOUND, STATES, AND, FROM, FROM_COUNT, NO_END, ITS_HALT, HALT_BYTE,
        ],
    ),
    Shape(
        "size",
        &[
            STAGES, PROCESSORS, FOUND, STATES, AND, FROM, FROM_COUNT, NO_END, ITS_FAULT, FAULT_NO,
        ],
    ),
    Shape(
        "size",
        &[
            STAGES, PROCESSORS, FOUND, STATES, AND, FROM, FROM_COUNT, NO_END, ITS_NONE,
        ],
    ),
    Shape("size", &[STAGES, PROCESSORS, UNEXPLORED]),
];

static COUNTS_SHAPES: [Shape; 11] = [
    Shape("machine", &[K, C, B, R]),
    Shape("steps", &[STEPS, TURNS, UP, SERVE, DOWN, POKE, ROUNDS]),
    Shape(
        "stage",
        &[STAGE, UP, COMBINED, DOWN, SPLIT, REQUESTS, RECORDS, REPLIES],
    ),
    Shape("module", &[MODULE, SERVES, GROUPS]),
    Shape("module", &[MODULE, SERVES]),
    Shape("turns", &[PROCESSOR, TURNS, RETIRED]),
    Shape(
        "latency",
        &[
            LATENCY_OF_ALL,
            REFERENCES,
            LEAST,
            MEAN,
            GREATEST,
            ROUNDS_TAKEN,
        ],
    ),
    Shape(
        "latency",
        &[
            LATENCY_OF_PROCESSOR,
            REFERENCES,
            LEAST,
            MEAN,
            GREATEST,
            ROUNDS_TAKEN,
        ],
    ),
    Shape(
        "latency",
        &[
            LATENCY_OF_WORD,
            REFERENCES,
            LEAST,
            MEAN,
            GREATEST,
            ROUNDS_TAKEN,
        ],
    ),
    Shape("queues", &[ROUND, OF_STAGE, REQUESTS, RECORDS, REPLIES]),
    Shape("waited", &[WAITED, REQUESTS, RECORDS, REPLIES]),
];

static STUDY_SHAPES: [Shape; 1] = [Shape(
    "study",
    &[
        OF_K, B, R, MACHINES, END, ITS_STEPS, ROUNDS, REFERENCES, SERVE, COMBINED, REQUESTS,
        RECORDS, REPLIES, MEAN,
    ],
)];

static STORY_SHAPES: [Shape; 14] = [
    Shape("round", &[ROUND]),
    Shape(
        "step",
        &[NUMBER, A_TURN, TURN_OF, SENDS, ITS_FUNCTION, TO_WORD],
    ),
    Shape("step", &[NUMBER, A_TURN, TURN_OF, RETIRES, ITS_INSN, GIVES]),
    Shape(
        "step",
        &[NUMBER, A_TURN, TURN_OF, RETIRES, ITS_INSN, PRINTS],
    ),
    Shape("step", &[NUMBER, A_TURN, TURN_OF, RETIRES, ITS_INSN]),
    Shape("step", &[NUMBER, A_TURN, TURN_OF, STOPS, HALT, HALT_BYTE]),
    Shape("step", &[NUMBER, A_TURN, TURN_OF, STOPS, FAULT, FAULT_NO]),
    Shape("step", &[NUMBER, AN_UP, ITS_STAGE, ITS_WIRE, MOVES, DEPTH]),
    Shape(
        "step",
        &[
            NUMBER, AN_UP, ITS_STAGE, ITS_WIRE, JOINS, SECOND, LEADER, AT_STAGE, GOES_ON, KEPT,
            IS_KEPT,
        ],
    ),
    Shape(
        "step",
        &[
            NUMBER,
            A_SERVE,
            ITS_MODULE,
            SERVES_ALL,
            SERVED,
            ALL_SERVED,
            SERVED_WORD,
            BEFORE,
            TO,
        ],
    ),
    Shape("step", &[NUMBER, A_DOWN, ITS_STAGE, ITS_WIRE, MOVES, DEPTH]),
    Shape(
        "step",
        &[
            NUMBER, A_DOWN, ITS_STAGE, ITS_WIRE, ANSWERS, LEADERS, AT_STAGE, VALUES,
        ],
    ),
    Shape(
        "step",
        &[NUMBER, A_POKE, ITS_OWNER, ADDRESS, NEW_BYTE, WRITES],
    ),
    Shape(
        "step",
        &[NUMBER, A_POKE, ITS_OWNER, REGISTER, NEW_WORD, WRITES],
    ),
];

static ORDER_SHAPES: [Shape; 10] = [
    Shape(
        "poke",
        &[NUMBER, OWNER, POKES_BYTE, NEW_BYTE, ON_WORD, BEFORE, AFTER],
    ),
    Shape("poke", &[NUMBER, OWNER, POKES_BYTE, NEW_BYTE]),
    Shape("poke", &[NUMBER, OWNER, POKES_REG, NEW_WORD]),
    Shape("entry", &[NUMBER, TAKER, ADDRESS, HALT, HALT_BYTE]),
    Shape("entry", &[NUMBER, TAKER, ADDRESS, FAULT, FAULT_NO]),
    Shape(
        "entry",
        &[NUMBER, TAKER, ADDRESS, INSN, GIVES, ON_WORD, BEFORE, AFTER],
    ),
    Shape(
        "entry",
        &[NUMBER, TAKER, ADDRESS, INSN, ON_WORD, BEFORE, AFTER],
    ),
    Shape("entry", &[NUMBER, TAKER, ADDRESS, INSN, GIVES]),
    Shape("entry", &[NUMBER, TAKER, ADDRESS, INSN, PRINTS]),
    Shape("entry", &[NUMBER, TAKER, ADDRESS, INSN]),
];

static MISTAKES_SHAPES: [Shape; 4] = [
    Shape("fault", &[LINE, COLUMN, CODE, FAULTY, ADVICE]),
    Shape("fault", &[LINE, COLUMN, CODE, ADVICE]),
    Shape("faults", &[FAULTS]),
    Shape("faults", &[NO_FAULTS]),
];

static LISTING_SHAPES: [Shape; 3] = [
    Shape("code", &[AT, ENCODING, NO_INSN, COMMENT]),
    Shape("code", &[AT, ENCODING, NO_INSN]),
    Shape("code", &[AT, ENCODING, INSN]),
];

// A function for each table, since a proof computes with the tables that its function names.

/// The shapes of the lines that `run` and `replay` print. A line has the first of them that fits.
pub fn report() -> &'static [Shape] {
    &REPORT_SHAPES
}

/// Those of `hunt`.
pub fn hunt() -> &'static [Shape] {
    &HUNT_SHAPES
}

/// Those of `explore`.
pub fn results() -> &'static [Shape] {
    &RESULTS_SHAPES
}

/// Those of `explore --every`.
pub fn sizes() -> &'static [Shape] {
    &SIZES_SHAPES
}

/// Those of `stats`.
pub fn counts() -> &'static [Shape] {
    &COUNTS_SHAPES
}

/// Those of `study`.
pub fn study() -> &'static [Shape] {
    &STUDY_SHAPES
}

/// Those of `story`.
pub fn story() -> &'static [Shape] {
    &STORY_SHAPES
}

/// Those of `order`.
pub fn order() -> &'static [Shape] {
    &ORDER_SHAPES
}

/// Those of `check`.
pub fn mistakes() -> &'static [Shape] {
    &MISTAKES_SHAPES
}

/// Those of `dis`.
pub fn listing() -> &'static [Shape] {
    &LISTING_SHAPES
}
