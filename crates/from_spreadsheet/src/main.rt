// Reads a table file of the spreadsheet's edition on standard input and writes it in ours.
#![tactic(auto)]

use rules::Edition;

fn main(rt: HostRuntime) {
    converter::run(
        &mut rt.stdin(),
        &mut rt.stdout(),
        &mut rt.stderr(),
        Edition::Spreadsheet,
        b"from_spreadsheet: standard input was not read to its end\n",
        b"from_spreadsheet: the file was not written to its end\n",
    );
}
