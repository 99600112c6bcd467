//! Designs that run.

use crate::case::{Case, run, try_case};
use std::test::Fail;
use vs_world::Stream;

const ADDER: &str = "module top(input [7:0] a, output [7:0] y); assign y = a + 1; endmodule";

const HEADER: &str = "$timescale 1ns $end
$scope module top $end
$var wire 8 ! a [7:0] $end
$var wire 8 \" y [7:0] $end
$upscope $end
$enddefinitions $end
#0
$dumpvars
b00000000 !
b00000000 \"
$end
";

const WAVES: &str = "$timescale 1ns $end
$scope module top $end
$var wire 8 ! a [7:0] $end
$var wire 8 \" y [7:0] $end
$upscope $end
$enddefinitions $end
#0
$dumpvars
b00000000 !
b00000000 \"
$end
#1
b11111111 !
";

const VCD: [&str; 5] = ["d.sv", "--stim", "s.txt", "--vcd", "w.vcd"];

#[test]
fn values_and_macros_are_those_of_the_standard(rt: HostRuntime) -> Result<(), Fail> {
    let alloc = rt.alloc();
    let cases = [
        run(
            "a loop of statements counts bits",
            "module top(input [7:0] a, output logic [3:0] n); always_comb begin n = 0; for (int i = 0; i < 8; i++) n = n + a[i]; end endmodule",
            "set a b7\neval\n",
            "0 n=6\n",
        ),
        run(
            "a macro and a branch that is not taken",
            "`define W 4\n`ifdef NOPE\nbad \"text\" here\n`else\nmodule top(output [`W-1:0] y); assign y = `W'hd; endmodule\n`endif\n",
            "eval\n",
            "0 y=d\n",
        ),
    ];
    for case in &cases {
        try_case(&rt, alloc, case)?;
    }
    Ok(())
}

#[test]
fn processes_run_in_the_order_of_an_eval(rt: HostRuntime) -> Result<(), Fail> {
    let alloc = rt.alloc();
    let cases = [
        run(
            "nonblocking writes are applied together",
            "module top(input clk, output [3:0] p, q); logic [3:0] a = 1, b = 2; always_ff @(posedge clk) begin a <= b; b <= a; end assign p = a; assign q = b; endmodule",
            "eval\nclock clk 1\n",
            "0 p=1 q=2\n1 p=2 q=1\n2 p=2 q=1\n",
        ),
        run(
            "a memory is written by bytes and read as 0 outside",
            "module top(input clk, we, input [2:0] ad, input [1:0] be, input [15:0] d, output [15:0] q); logic [15:0] m [0:3]; always_ff @(posedge clk) if (we) begin if (be[0]) m[ad][7:0] <= d[7:0]; if (be[1]) m[ad][15:8] <= d[15:8]; end assign q = m[ad]; endmodule",
            "set we 1\nset ad 2\nset be 3\nset d abcd\nclock clk 1\nset be 1\nset d 1122\nclock clk 1\nset ad 7\neval\nset ad 2\neval\n",
            "0 q=abcd\n1 q=abcd\n2 q=ab22\n3 q=ab22\n4 q=0000\n5 q=ab22\n",
        ),
    ];
    for case in &cases {
        try_case(&rt, alloc, case)?;
    }
    Ok(())
}

#[test]
fn files_are_written_where_they_are_named(rt: HostRuntime) -> Result<(), Fail> {
    let alloc = rt.alloc();
    let waves = Case {
        words: &VCD,
        made: &[(Stream::Vcd, "w.vcd")],
        ..run("", ADDER, "", "")
    };
    let cases = [
        Case {
            title: "a waveform without evals",
            vcd: HEADER,
            ..waves
        },
        Case {
            title: "a waveform tells only what changed",
            stimulus: "set a ff\neval\n",
            out: "0 y=00\n",
            vcd: WAVES,
            ..waves
        },
        Case {
            title: "a check writes nothing",
            words: &["--lint-only", "d.sv", "e.sv", "--top-module", "top"],
            second: "module low; endmodule\n",
            ..run("", ADDER, "", "")
        },
    ];
    for case in &cases {
        try_case(&rt, alloc, case)?;
    }
    Ok(())
}

const POPCOUNT: &str = "import \"DPI-C\" pure function int vs_popcount(int x);
module top(input [7:0] a, b, output [31:0] p, q); assign p = vs_popcount(a); assign q = vs_popcount(b); endmodule
";

const LOG: &str = "0 vs_popcount(0000000f) = 00000004\n0 vs_popcount(000000ff) = 00000008\n";

// A run of that design whose call log is this one.
fn logged<'a>(title: &'a str, words: &'a [&'a str], calls: &'a str) -> Case<'a> {
    Case {
        words,
        calls,
        made: &[(Stream::Calls, "c.log")],
        ..run(
            title,
            POPCOUNT,
            "set a 0f\nset b ff\neval\n",
            "0 p=00000004 q=00000008\n",
        )
    }
}

#[test]
fn calls_are_logged_that_are_not_deemed_safe(rt: HostRuntime) -> Result<(), Fail> {
    let alloc = rt.alloc();
    let cases = [
        logged(
            "a pure import is deemed safe",
            &["d.sv", "--stim", "s.txt", "--calls", "c.log"],
            "",
        ),
        logged(
            "none is",
            &[
                "--threads-dpi",
                "none",
                "d.sv",
                "--stim",
                "s.txt",
                "--calls",
                "c.log",
            ],
            LOG,
        ),
    ];
    for case in &cases {
        try_case(&rt, alloc, case)?;
    }
    Ok(())
}
