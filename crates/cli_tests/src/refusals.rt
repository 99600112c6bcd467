//! Commands that are refused, or whose files are not there.

use crate::case::{Case, refused, run, try_case};
use run_status::Status;
use std::test::Fail;

const RUN: [&str; 3] = ["d.sv", "--stim", "s.txt"];

const DESIGN: &str = "module top(input [7:0] a, output [7:0] y); assign y = a + 1; endmodule";

// Words that are usage.
fn usage<'a>(title: &'a str, words: &'a [&'a str]) -> Case<'a> {
    refused(title, words, DESIGN, "eval\n", "vsim: usage\n")
}

#[test]
fn words_that_set_nothing_are_usage(rt: HostRuntime) -> Result<(), Fail> {
    let alloc = rt.alloc();
    let cases = [
        usage("both", &["d.sv", "--lint-only", "--stim", "s.txt"]),
        usage(
            "one file for two texts",
            &["d.sv", "--stim", "s.txt", "--calls", "f", "--vcd", "f"],
        ),
    ];
    for case in &cases {
        try_case(&rt, alloc, case)?;
    }
    Ok(())
}

// A design that is refused.
fn design<'a>(title: &'a str, design: &'a str, errors: &'a str) -> Case<'a> {
    refused(title, &RUN, design, "tick\n", errors)
}

#[test]
fn a_design_is_refused_before_its_stimulus(rt: HostRuntime) -> Result<(), Fail> {
    let alloc = rt.alloc();
    let cases = [
        design(
            "a comment that is open",
            "module top; /* x",
            "vsim: d.sv:1:13: open comment\n",
        ),
        design(
            "an unknown macro",
            "`define A `B\n`define B `C\nmodule top;\n`A endmodule\n",
            "vsim: d.sv:4:1: unknown macro C\n",
        ),
        design(
            "no more tokens",
            "module top(output y); assign y =",
            "vsim: syntax error at end of input\n",
        ),
        Case {
            words: &["d.sv", "e.sv", "--stim", "s.txt"],
            second: "\"open\n",
            ..design(
                "each file is lexed before any is preprocessed",
                "`nope\n",
                "vsim: e.sv:1:1: open string\n",
            )
        },
    ];
    for case in &cases {
        try_case(&rt, alloc, case)?;
    }
    Ok(())
}

const NEXT: &str = "import \"DPI-C\" function int vs_next();
module top(input clk, output [31:0] y, output logic t); assign y = vs_next(); always_ff @(posedge clk) t <= ~t; endmodule
";

#[test]
fn a_model_is_refused_before_its_stimulus(rt: HostRuntime) -> Result<(), Fail> {
    let alloc = rt.alloc();
    let cases = [
        design(
            "a bit with two drivers",
            "module top(input a, output [1:0] y); assign y[0] = a; assign y[0] = 1; endmodule",
            "vsim: two drivers of top.y[0]: d.sv:1:45 d.sv:1:62\n",
        ),
        design(
            "an import that the host does not have",
            "module top(output [31:0] x); import \"DPI-C\" function int b(); assign x = b(); endmodule",
            "vsim: import b is unknown\n",
        ),
        refused(
            "an import that is deemed safe and has a state",
            &[
                "d.sv",
                "--stim",
                "s.txt",
                "--threads-dpi",
                "all",
                "--calls",
                "c.log",
            ],
            NEXT,
            "tick\n",
            "vsim: import vs_next does not answer by arguments alone\n",
        ),
        refused(
            "a check goes up to the model",
            &["d.sv", "--lint-only"],
            "module top(output a, b); assign a = b; assign b = a; endmodule",
            "",
            "vsim: loop of 2: d.sv:1:33 d.sv:1:47\n",
        ),
    ];
    for case in &cases {
        try_case(&rt, alloc, case)?;
    }
    Ok(())
}

// A stimulus of the design that is refused.
fn stimulus<'a>(title: &'a str, text: &'a str, errors: &'a str) -> Case<'a> {
    refused(title, &RUN, DESIGN, text, errors)
}

// A file that is not there.
fn absent<'a>(title: &'a str, words: &'a [&'a str], errors: &'a str) -> Case<'a> {
    Case {
        words,
        status: Status::WorldFault,
        errors,
        absent: 1,
        ..run(title, DESIGN, "eval\n", "")
    }
}

#[test]
fn stimuli_and_files_are_refused(rt: HostRuntime) -> Result<(), Fail> {
    let alloc = rt.alloc();
    let cases = [
        stimulus(
            "a value too wide",
            "set a 100\n",
            "vsim: stimulus line 1: value too wide\n",
        ),
        absent(
            "no such design",
            &["none.sv", "--stim", "s.txt"],
            "vsim: cannot read none.sv\n",
        ),
        absent(
            "no such stimulus",
            &["d.sv", "--stim", "none"],
            "vsim: cannot read none\n",
        ),
    ];
    for case in &cases {
        try_case(&rt, alloc, case)?;
    }
    Ok(())
}
