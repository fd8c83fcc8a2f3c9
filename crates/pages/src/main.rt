// Reads an order from standard input and writes its run sheets, all pages one after the other or the one whose number is the first argument
// (document 02, K3). What is written for the text that is read is a definition, `reading_pages` in crates/page_report/specs/PageReport.antt.
#![tactic(auto)]

ghost use Rattle.std.specs.Prelude.{◌≡◌, ◌⊎◌, List, ℕ, ◌≤◌, length, take};
ghost use Rattle.buffers.specs.Put.{Put};
ghost use Rattle.sheets.specs.Outcome.{outcome};
ghost use Rattle.words.specs.Scanner.{scanned_reading, Ended};
ghost use Rattle.input.specs.Answering.{AnsweringBy};
ghost use Rattle.page_report.specs.PageReport.{outcome_pages, reading_pages, page_room};
ghost use Rattle.page_argument.specs.PageArgument.{asked_by};
ghost use Rattle.page_argument.specs.declared.Asked.TheVariants.{All};

use input::scan_input;
use page_argument::{Asked, asked_by};
use page_printing::plan_and_put_pages;
use report::put_refused;
use sheets::answer::Refusal;
use std::env::{Env, FillError};
use std::io;
use std::io::Read;
use words::BadWord;

fn main(rt: HostRuntime) -> io::Result<()> {
    let asked = page_asked(&rt);
    let mut out = page_room();
    let end = answer_input(&mut rt.stdin(), asked, &mut out);
    write_pages(&rt, asked, &out[..end])
}

// Writes the pages that are asked for, and nothing else.
fn write_pages(rt: &impl Print, asked: Asked, bytes: &[u8]) -> io::Result<()>
    requires { AnsweringBy (reading_pages asked) bytes.now }
{
    rt.write_all(bytes)
}

// Room for all pages of any sheet. The contract tells the length alone, so that no proof writes the zeros out.
fn page_room() -> [u8; 259200]
    ensures { 259200 ≡ length result }
{
    [0; 259200]
}

// The pages that the first argument asks for, or all of them where there is none. Nothing can say which bytes an argument has, so the contract says
// that there are such bytes. The system hands over no argument that is longer than the room for it.
fn page_asked(rt: &impl Env) -> Asked
    ensures { (result ≡ All) ⊎ ((argument : List ℕ) × (result ≡ asked_by argument)) }
{
    let mut argument = [0u8; 131072];
    match rt.arg(1, &mut argument) {
        Ok(length) => asked_by(&argument[..length]),
        Err(FillError::TooLong) => asked_by(&argument[..0]),
        Err(FillError::NotPresent) => Asked::All,
    }
}

// Puts what is printed for standard input, whole, at the front of a buffer.
fn answer_input<R: Read>(reader: &mut R, asked: Asked, out: &mut [u8]) -> usize
    requires { page_room ≤ length out.old }
    ensures { (result ≤ length out.new) × AnsweringBy (reading_pages asked) (take result out.new) }
{
    let mut list = [0u16; 32768];
    let scanned = scan_input(reader, &mut list);
    put_scanned(scanned, &list, asked, out)
}

// Puts what is printed for a text that comes to this: the pages of its numbers, or the refusal of a word.
fn put_scanned(scanned: Result<usize, BadWord>, list: &[u16], asked: Asked, out: &mut [u8]) -> usize
    requires ended { Ended 32768 scanned list.now }
    requires page_room_in_bounds { page_room ≤ length out.old }
    ensures { Put out.old 0 (reading_pages asked (scanned_reading (scanned, list.now))) out.new result }
{
    match scanned {
        Ok(count) => put_pages(&list[..count], asked, out),
        Err(BadWord { place }) => put_refused(out, Refusal::Unreadable { place }),
    }
}

// Plans a list of numbers and puts the pages of the sheet, or the refusal.
fn put_pages(list: &[u16], asked: Asked, out: &mut [u8]) -> usize
    requires { page_room ≤ length out.old }
    ensures { Put out.old 0 (outcome_pages asked (outcome list.now)) out.new result }
{
    let mut table = [0u8; 65536];
    let mut levels = [0u8; 128];
    let mut scratch = [0u8; 65536];
    plan_and_put_pages(list, &mut table, &mut levels, &mut scratch, asked, out)
}
