//! Commands of which a call of the world fails, and runs that stop.

use crate::case::{Case, run, try_case};
use run_status::Status;
use std::test::Fail;
use vs_world::{Op, Planned, Stream};

const DESIGN: &str = "import \"DPI-C\" function int vs_next();
module top(input clk, output [31:0] y, output logic t); assign y = vs_next(); always_ff @(posedge clk) t <= ~t; endmodule
";

const WORDS: [&str; 7] = [
    "d.sv", "--stim", "s.txt", "--calls", "c.log", "--vcd", "w.vcd",
];

const CALLS: (Stream, &str) = (Stream::Calls, "c.log");

const VCD: (Stream, &str) = (Stream::Vcd, "w.vcd");

const OUT: [&str; 4] = [
    "",
    "0 y=00000001 t=0\n",
    "0 y=00000001 t=0\n1 y=00000003 t=1\n",
    "0 y=00000001 t=0\n1 y=00000003 t=1\n2 y=00000004 t=1\n",
];

const LOG: [&str; 4] = [
    "",
    "0 vs_next() = 00000001\n",
    "0 vs_next() = 00000001\n1 vs_next() = 00000002\n1 vs_next() = 00000003\n",
    "0 vs_next() = 00000001\n1 vs_next() = 00000002\n1 vs_next() = 00000003\n2 vs_next() = 00000004\n",
];

const WAVES: [&str; 5] = [
    "",
    "$timescale 1ns $end
$scope module top $end
$var wire 1 ! clk $end
$var wire 32 \" y [31:0] $end
$var wire 1 # t $end
$upscope $end
$enddefinitions $end
#0
$dumpvars
0!
b00000000000000000000000000000000 \"
0#
$end
",
    "$timescale 1ns $end
$scope module top $end
$var wire 1 ! clk $end
$var wire 32 \" y [31:0] $end
$var wire 1 # t $end
$upscope $end
$enddefinitions $end
#0
$dumpvars
0!
b00000000000000000000000000000000 \"
0#
$end
#1
b00000000000000000000000000000001 \"
",
    "$timescale 1ns $end
$scope module top $end
$var wire 1 ! clk $end
$var wire 32 \" y [31:0] $end
$var wire 1 # t $end
$upscope $end
$enddefinitions $end
#0
$dumpvars
0!
b00000000000000000000000000000000 \"
0#
$end
#1
b00000000000000000000000000000001 \"
#2
1!
b00000000000000000000000000000011 \"
1#
",
    "$timescale 1ns $end
$scope module top $end
$var wire 1 ! clk $end
$var wire 32 \" y [31:0] $end
$var wire 1 # t $end
$upscope $end
$enddefinitions $end
#0
$dumpvars
0!
b00000000000000000000000000000000 \"
0#
$end
#1
b00000000000000000000000000000001 \"
#2
1!
b00000000000000000000000000000011 \"
1#
#3
0!
b00000000000000000000000000000100 \"
",
];

// The run with so many texts of each stream, of which nothing fails.
fn part(title: &str, out: usize, calls: usize, vcd: usize) -> Case<'_> {
    Case {
        words: &WORDS,
        calls: LOG[calls.min(3)],
        vcd: WAVES[vcd.min(4)],
        made: &[CALLS, VCD],
        ..run(title, DESIGN, "eval\nclock clk 1\n", OUT[out.min(3)])
    }
}

// A call fails before anything is created.
fn early<'a>(title: &'a str, fails: Planned, errors: &'a str) -> Case<'a> {
    Case {
        fails: Some(fails),
        status: Status::WorldFault,
        errors,
        made: &[],
        faults: 1,
        ..part(title, 0, 0, 0)
    }
}

// A write fails, after so many texts of each stream.
fn late<'a>(fails: Planned, texts: (usize, usize, usize), errors: &'a str) -> Case<'a> {
    Case {
        fails: Some(fails),
        status: Status::WorldFault,
        errors,
        faults: 1,
        ..part("a write fails", texts.0, texts.1, texts.2)
    }
}

const fn planned(op: Op, nth: u64) -> Planned {
    Planned { op, nth }
}

// Of each file one read gives its bytes and one its end; the second of d.sv is the command's second read.
#[test]
fn a_call_before_the_run_fails(rt: HostRuntime) -> Result<(), Fail> {
    let alloc = rt.alloc();
    let d_sv = "vsim: cannot read d.sv\n";
    let s_txt = "vsim: cannot read s.txt\n";
    let second = Case {
        made: &[CALLS],
        ..early(
            "the waveform is not created",
            planned(Op::Create, 2),
            "vsim: cannot create w.vcd\n",
        )
    };
    let cases = [
        part("nothing fails", 3, 3, 4),
        early("the first read", planned(Op::Read, 1), d_sv),
        early("the end of the design", planned(Op::Read, 2), d_sv),
        early("the stimulus", planned(Op::Read, 3), s_txt),
        early("the end of the stimulus", planned(Op::Read, 4), s_txt),
        early(
            "the call log is not created",
            planned(Op::Create, 1),
            "vsim: cannot create c.log\n",
        ),
        second,
    ];
    for case in &cases {
        try_case(&rt, alloc, case)?;
    }
    Ok(())
}

// Each text is one write; the first of the waveform is its header.
#[test]
fn a_write_of_the_run_fails(rt: HostRuntime) -> Result<(), Fail> {
    let alloc = rt.alloc();
    let out = "vsim: cannot write out\n";
    let calls = "vsim: cannot write calls\n";
    let vcd = "vsim: cannot write vcd\n";
    let cases = [
        late(planned(Op::Write(Stream::Vcd), 1), (0, 0, 0), vcd),
        late(planned(Op::Write(Stream::Out), 1), (0, 0, 1), out),
        late(planned(Op::Write(Stream::Calls), 1), (1, 0, 1), calls),
        late(planned(Op::Write(Stream::Vcd), 2), (1, 1, 1), vcd),
        late(planned(Op::Write(Stream::Out), 2), (1, 1, 2), out),
        late(planned(Op::Write(Stream::Calls), 2), (2, 1, 2), calls),
        late(planned(Op::Write(Stream::Vcd), 3), (2, 2, 2), vcd),
        late(planned(Op::Write(Stream::Out), 3), (2, 2, 3), out),
        late(planned(Op::Write(Stream::Calls), 3), (3, 2, 3), calls),
        late(planned(Op::Write(Stream::Vcd), 4), (3, 3, 3), vcd),
    ];
    for case in &cases {
        try_case(&rt, alloc, case)?;
    }
    Ok(())
}

// Where a call moves one byte, a text is cut short; and the line on standard error may fail as well.
#[test]
fn a_write_fails_within_a_text(rt: HostRuntime) -> Result<(), Fail> {
    let alloc = rt.alloc();
    let cases = [
        Case {
            most: 1,
            out: "0 y=0",
            ..late(
                planned(Op::Write(Stream::Out), 6),
                (0, 0, 1),
                "vsim: cannot write out\n",
            )
        },
        Case {
            most: 1,
            calls: "0 vs_n",
            ..late(
                planned(Op::Write(Stream::Calls), 7),
                (1, 0, 1),
                "vsim: cannot write calls\n",
            )
        },
        Case {
            also: Some(planned(Op::Write(Stream::Errors), 2)),
            faults: 2,
            ..late(planned(Op::Write(Stream::Out), 2), (1, 1, 2), "vsim: ")
        },
        Case {
            words: &["d.sv"],
            errors: "vsim: ",
            ..early("usage", planned(Op::Write(Stream::Errors), 2), "")
        },
    ];
    for case in &cases {
        try_case(&rt, alloc, case)?;
    }
    Ok(())
}

// With the clock at 1 the register follows its own edges without end.
const ENDLESS: &str = "module top(input clk, output logic q);
always_ff @(posedge clk or posedge q or negedge q) q <= ~q;
endmodule
";

// A run that stops at its second eval.
fn stopped<'a>(title: &'a str, errors: &'a str) -> Case<'a> {
    Case {
        status: Status::Refused,
        errors,
        ..run(title, ENDLESS, "eval\nclock clk 1\neval\n", "0 q=0\n")
    }
}

// What stands on standard output before that eval is kept; the line on standard error comes after it.
#[test]
fn an_eval_does_not_converge(rt: HostRuntime) -> Result<(), Fail> {
    let alloc = rt.alloc();
    let cases = [
        stopped("a run stops", "vsim: eval 1: not converged\n"),
        Case {
            fails: Some(planned(Op::Write(Stream::Errors), 3)),
            status: Status::WorldFault,
            faults: 1,
            ..stopped("its line is cut short", "vsim: eval ")
        },
        Case {
            fails: Some(planned(Op::Write(Stream::Out), 1)),
            status: Status::WorldFault,
            out: "",
            faults: 1,
            ..stopped("standard output failed before", "vsim: cannot write out\n")
        },
    ];
    for case in &cases {
        try_case(&rt, alloc, case)?;
    }
    Ok(())
}
