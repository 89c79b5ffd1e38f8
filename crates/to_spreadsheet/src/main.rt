// Reads a table file of ours on standard input and writes it in the spreadsheet's edition.
#![tactic(auto)]

use rules::Edition;

fn main(rt: HostRuntime) {
    converter::run(
        &mut rt.stdin(),
        &mut rt.stdout(),
        &mut rt.stderr(),
        Edition::Ours,
        b"to_spreadsheet: standard input was not read to its end\n",
        b"to_spreadsheet: the file was not written to its end\n",
    );
}
