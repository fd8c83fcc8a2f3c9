// Runs the checks of `counting` on arrays that the papers print, on damaged copies of some, and on generators, and prints what each found.
#![tactic(auto)]

mod generators;
mod matrices;
mod tables;

use findings::{report_generator, report_matrix, report_table};
use std::io;

fn main(rt: HostRuntime) -> io::Result<()> {
    table_4(&rt)?;
    other_tables(&rt)?;
    difference_matrices(&rt)?;
    damaged_copies(&rt)?;
    small_generators(&rt)?;
    printed_generators(&rt)
}

// The tables of 002, Table 4.
fn table_4(rt: &impl Print) -> io::Result<()> {
    report_table(rt, b"L4(2^3)", &tables::L4, &[2, 2, 2], 4)?;
    report_table(rt, b"L9(3^4)", &tables::L9, &[3, 3, 3, 3], 9)?;
    report_table(rt, b"L12(3x2^4)", &tables::L12_3, &[3, 2, 2, 2, 2], 12)?;
    report_table(rt, b"L12(6x2^2)", &tables::L12_6, &[6, 2, 2], 12)?;
    report_table(rt, b"L12(2^11)", &tables::L12_2, &[2; 11], 12)?;
    report_table(rt, b"L18(6x3^6)", &tables::L18, &[6, 3, 3, 3, 3, 3, 3], 18)
}

// Tables of 002, 003 and 004 that stand elsewhere.
fn other_tables(rt: &impl Print) -> io::Result<()> {
    report_table(
        rt,
        b"L36(6^2x3^8x2)",
        &tables::L36,
        &[6, 3, 3, 3, 3, 6, 3, 3, 3, 3, 2],
        36,
    )?;
    report_table(
        rt,
        b"L12(3x2^4) of 003",
        &tables::L12_3_OF_003,
        &[3, 2, 2, 2, 2],
        12,
    )?;
    report_table(
        rt,
        b"L20(5x2^8)",
        &tables::L20,
        &[5, 2, 2, 2, 2, 2, 2, 2, 2],
        20,
    )?;
    report_table(rt, b"L16(4x2^3)", &tables::L16, &[4, 2, 2, 2], 16)?;
    report_table(
        rt,
        b"L12(6x2^2) of 003 as printed",
        &tables::L12_6_AS_PRINTED,
        &[6, 2, 2],
        12,
    )
}

// The difference matrices of 003's appendix.
fn difference_matrices(rt: &impl Print) -> io::Result<()> {
    report_matrix(rt, b"D 3,3;3", &matrices::D_3_3_3, 3, 3, 3)?;
    report_matrix(
        rt,
        b"D 5,5;5 as printed",
        &matrices::D_5_5_5_AS_PRINTED,
        5,
        5,
        5,
    )?;
    report_matrix(rt, b"D 6,6;3", &matrices::D_6_6_3, 6, 6, 3)?;
    report_matrix(rt, b"D 10,10;5", &matrices::D_10_10_5, 10, 10, 5)?;
    report_matrix(rt, b"H 12", &matrices::H_12, 12, 12, 2)?;
    report_matrix(rt, b"D 12,12;3", &matrices::D_12_12_3, 12, 12, 3)?;
    report_matrix(rt, b"D 12,12;4", &matrices::D_12_12_4, 12, 12, 4)?;
    report_matrix(rt, b"D 12,6;6", &matrices::D_12_6_6, 12, 6, 6)?;
    report_matrix(rt, b"D 14,14;7", &matrices::D_14_14_7, 14, 14, 7)?;
    report_matrix(rt, b"D 30,30;3", &matrices::D_30_30_3, 30, 30, 3)
}

// Copies with an entry changed or, where the columns are to stay even, two exchanged.
fn damaged_copies(rt: &impl Print) -> io::Result<()> {
    let mut uneven_column = tables::L9;
    uneven_column[0] = b'1';
    report_table(
        rt,
        b"L9(3^4) with level 1 in run 0, column 1",
        &uneven_column,
        &[3, 3, 3, 3],
        9,
    )?;

    let mut uneven_pair = tables::L4;
    uneven_pair[2] = b'1';
    uneven_pair[5] = b'0';
    report_table(
        rt,
        b"L4(2^3) with runs 0 and 1 exchanged in column 3",
        &uneven_pair,
        &[2, 2, 2],
        4,
    )?;

    let mut uneven_difference = matrices::D_6_6_3;
    uneven_difference[35] = b'1';
    report_matrix(
        rt,
        b"D 6,6;3 with entry 1 in row 5, column 6",
        &uneven_difference,
        6,
        6,
        3,
    )
}

// The two generators of document 01's examples: independent factors, and equal ones.
fn small_generators(rt: &impl Print) -> io::Result<()> {
    report_generator(
        rt,
        b"Factors (1,0), (0,1), (1,1) over GF(2)",
        b"101011",
        2,
        2,
        &[1, 1, 1],
    )?;
    report_generator(
        rt,
        b"Factors (1,0), (1,0) over GF(2)",
        b"1100",
        2,
        2,
        &[1, 1],
    )
}

// The generators of 004.
fn printed_generators(rt: &impl Print) -> io::Result<()> {
    report_generator(
        rt,
        b"004, Example 2.1",
        &generators::EXAMPLE_2_1,
        4,
        2,
        &[2, 1, 1, 1],
    )?;
    report_generator(
        rt,
        b"004, Theorem 3.7 (i)",
        &generators::THEOREM_3_7_I,
        5,
        3,
        &[2, 1, 1, 1, 1, 1, 1, 1, 1, 1, 1, 1, 1, 1],
    )?;
    report_generator(
        rt,
        b"004, Theorem 3.7 (ii)",
        &generators::THEOREM_3_7_II,
        5,
        3,
        &[2, 2, 1, 1, 1, 1, 1, 1, 1, 1, 1],
    )?;
    report_generator(
        rt,
        b"004, Remark 4.1",
        &generators::REMARK_4_1,
        5,
        2,
        &[2, 1, 1, 1, 1],
    )
}
