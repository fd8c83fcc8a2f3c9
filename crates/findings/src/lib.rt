// What a check finds, printed: an array that is written as digits is checked, and its name and what was found are printed.
#![tactic(auto)]

mod digits; // digits.rt: the values of a text's digits

ghost use Rattle.findings.specs.Written.{WrittenTable, WrittenMatrix, WrittenGenerator};

use counting::verdict::{DependenceFault, DifferenceFault, TableFault};
use digits::digit_values;
use generator_check::check_generator;
use matrix_check::check_matrix;
use std::io;
use table_check::check_table;

// The table whose runs the digits of `text` are, one run after the other.
pub fn report_table(
    rt: &impl Print,
    name: &[u8],
    text: &[u8],
    levels: &[u8],
    runs: usize,
) -> io::Result<()>
    requires { WrittenTable text.now levels.now runs }
{
    let mut cells = [0u8; 1024];
    digit_values(text, &mut cells);
    let size = text.len();
    let verdict = check_table(&cells[..size], levels, runs);
    print(rt, name)?;
    let finding = verdict.finding;
    print_table_finding(rt, finding)
}

// The matrix whose rows the digits of `text` are, one row after the other.
pub fn report_matrix(
    rt: &impl Print,
    name: &[u8],
    text: &[u8],
    rows: usize,
    columns: usize,
    p: usize,
) -> io::Result<()>
    requires { WrittenMatrix text.now rows columns p }
{
    let mut entries = [0u8; 1024];
    digit_values(text, &mut entries);
    let size = text.len();
    let finding = check_matrix(&entries[..size], rows, columns, p);
    print(rt, name)?;
    print_matrix_finding(rt, finding)
}

// The generator whose rows the digits of `text` are, one row after the other.
pub fn report_generator(
    rt: &impl Print,
    name: &[u8],
    text: &[u8],
    t: usize,
    s: u8,
    widths: &[u8],
) -> io::Result<()>
    requires { WrittenGenerator text.now t s widths.now }
{
    let mut entries = [0u8; 1024];
    digit_values(text, &mut entries);
    let size = text.len();
    let finding = check_generator(&entries[..size], t, s, widths);
    print(rt, name)?;
    print_generator_finding(rt, finding)
}

fn print_table_finding(rt: &impl Print, finding: Result<(), TableFault>) -> io::Result<()> {
    match finding {
        Ok(()) => print(rt, b": passes\n"),
        Err(fault) => print_table_fault(rt, fault),
    }
}

fn print_table_fault(rt: &impl Print, fault: TableFault) -> io::Result<()> {
    match fault {
        TableFault::Column {
            column,
            level,
            times,
        } => {
            print_number(rt, b": fails, column ", column)?;
            print_number(rt, b", level ", level)?;
            print_number(rt, b", times ", times)?;
        }
        TableFault::Pair {
            first,
            second,
            first_level,
            second_level,
            times,
        } => {
            print_two(rt, b": fails, columns ", first, second)?;
            print_two(rt, b", levels ", first_level, second_level)?;
            print_number(rt, b", times ", times)?;
        }
    }
    print(rt, b"\n")
}

fn print_matrix_finding(rt: &impl Print, finding: Result<(), DifferenceFault>) -> io::Result<()> {
    match finding {
        Ok(()) => print(rt, b": passes\n"),
        Err(fault) => {
            print_two(rt, b": fails, columns ", fault.first, fault.second)?;
            print_number(rt, b", difference ", fault.difference)?;
            print_number(rt, b", times ", fault.times)?;
            print(rt, b"\n")
        }
    }
}

fn print_generator_finding(
    rt: &impl Print,
    finding: Result<(), DependenceFault>,
) -> io::Result<()> {
    match finding {
        Ok(()) => print(rt, b": passes\n"),
        Err(fault) => {
            print_two(rt, b": fails, factors ", fault.first, fault.second)?;
            print_number(rt, b", coefficients ", fault.coefficients)?;
            print(rt, b"\n")
        }
    }
}

fn print_two(rt: &impl Print, label: &[u8], first: usize, second: usize) -> io::Result<()> {
    print_number(rt, label, first)?;
    print_number(rt, b" ", second)
}

fn print_number(rt: &impl Print, label: &[u8], n: usize) -> io::Result<()> {
    print(rt, label)?;
    print!(rt; "{n}")
}

fn print(rt: &impl Print, text: &[u8]) -> io::Result<()> {
    rt.write_all(text)
}
