// Worked cases of the writer and the opener, a line each.
#![tactic(auto)]

use cases::lines::{put, put_answer, put_bytes, put_label, put_number, put_taken};
use cases::sets::{V1, V2, V3, V16, case_of, example, hard, named, pair, soft};
use shield::builder;
use table_file::{opener, writer};
use tasks::sets::Set;

const PAIR_TABLE: [u8; 16] = [6, 5, 2, 5, 3, 1, 2, 1, 4, 4, 0, 4, 3, 1, 2, 1];

// What the writer answers, and every byte of the file buffer.
fn show_write(rt: &impl Print, label: &[u8], s: Set, table: &[u8], file: &mut [u8]) {
    put_label(rt, b"write ", label);
    put_answer(rt, b" length ", writer::write(s, table, file));
    put(rt, b" file");
    put_bytes(rt, file);
    put(rt, b"\n");
}

// What the opener answers, and the part that it hands back.
fn show_open(rt: &impl Print, s: Set, file: &[u8]) {
    put_taken(rt, b" opens", opener::verdict(s, file));
    put(rt, b" part");
    put_bytes(rt, opener::open(s, file));
    put(rt, b"\n");
}

fn show_labelled(rt: &impl Print, label: &[u8], s: Set, file: &[u8]) {
    put_label(rt, b"open ", label);
    show_open(rt, s, file);
}

// Each byte in turn is changed, and put back.
fn damage(rt: &impl Print, s: Set, file: &mut [u8]) {
    for i in 0..file.len() {
        let old = file[i];
        file[i] = 255 - old;
        put_number(rt, b"byte ", i);
        put(rt, b":");
        show_open(rt, s, file);
        file[i] = old;
    }
}

// Each length from none to all.
fn cut(rt: &impl Print, s: Set, file: &[u8]) {
    for n in 0..=file.len() {
        put_number(rt, b"first ", n);
        put(rt, b":");
        show_open(rt, s, &file[..n]);
    }
}

fn tight(name: [u8; 16]) -> Set {
    named(name, case_of([hard(1, V1, V1)]))
}

// 272 states: S and both lists have a high byte.
fn wide() -> Set {
    named(
        *b"WIDE\0\0\0\0\0\0\0\0\0\0\0\0",
        case_of([soft(16, V1 + V16, V16)]),
    )
}

// PAIR, whole and with bytes beyond the file and beyond the table.
fn pair_written(rt: &impl Print) {
    show_write(rt, b"PAIR", pair(), &PAIR_TABLE, &mut [170; 54]);
    show_write(rt, b"PAIR, 57 bytes", pair(), &PAIR_TABLE, &mut [170; 57]);
    show_write(
        rt,
        b"PAIR, 18 entries",
        pair(),
        &[6, 5, 2, 5, 3, 1, 2, 1, 4, 4, 0, 4, 3, 1, 2, 1, 255, 255],
        &mut [170; 54],
    );
}

// The refusals of the writer, in their order.
fn refused_written(rt: &impl Print) {
    show_write(rt, b"PAIR, every entry 1", pair(), &[1; 16], &mut [170; 54]);
    show_write(rt, b"PAIR, no bytes", pair(), &[1; 0], &mut [170; 0]);
    show_write(
        rt,
        b"PAIR, 15 and 53 bytes",
        pair(),
        &[1; 15],
        &mut [170; 53],
    );
    show_write(
        rt,
        b"PAIR, every entry 1, 53 bytes",
        pair(),
        &[1; 16],
        &mut [170; 53],
    );
    show_write(rt, b"PAIR, 53 bytes", pair(), &PAIR_TABLE, &mut [170; 53]);
    show_write(
        rt,
        b"hard 2 3 3, no bytes",
        named(*b"LATE\0\0\0\0\0\0\0\0\0\0\0\0", case_of([hard(2, V3, V3)])),
        &[1; 0],
        &mut [170; 3],
    );
    show_write(
        rt,
        b"no name",
        tight(*b"\0\0\0\0\0\0\0\0\0\0\0\0\0\0\0\0"),
        &[2, 1],
        &mut [170; 34],
    );
}

// PAIR's file with each byte changed, and at each length to one more than its own.
fn pair_damaged(rt: &impl Print) {
    let mut file = [170; 55];
    let _ = writer::write(pair(), &PAIR_TABLE, &mut file);
    cut(rt, pair(), &file);
    let mut whole = [170; 54];
    let _ = writer::write(pair(), &PAIR_TABLE, &mut whole);
    damage(rt, pair(), &mut whole);
}

// The same for a name of 16 characters.
fn tight_damaged(rt: &impl Print) {
    let name = *b"ABCDEFGHIJKLMNOP";
    let mut file = [170; 35];
    let _ = writer::write(tight(name), &[2, 1], &mut file);
    cut(rt, tight(name), &file);
    let mut whole = [170; 34];
    show_write(rt, b"hard 1 1 1", tight(name), &[2, 1], &mut whole);
    damage(rt, tight(name), &mut whole);
    others_open(rt, name, &whole);
}

// What other sets make of that file.
fn others_open(rt: &impl Print, name: [u8; 16], file: &[u8]) {
    show_labelled(rt, b"16th character", tight(*b"ABCDEFGHIJKLMNOQ"), file);
    show_labelled(rt, b"9th character", tight(*b"ABCDEFGHJJKLMNOP"), file);
    show_labelled(
        rt,
        b"a name of 8",
        tight(*b"ABCDEFGH\0\0\0\0\0\0\0\0"),
        file,
    );
    show_labelled(
        rt,
        b"soft 1 1 1",
        named(name, case_of([soft(1, V1, V1)])),
        file,
    );
    show_labelled(
        rt,
        b"hard 1 1 2",
        named(name, case_of([hard(1, V1, V2)])),
        file,
    );
    show_labelled(
        rt,
        b"hard 1 1 16",
        named(name, case_of([hard(1, V1, V16)])),
        file,
    );
    show_labelled(
        rt,
        b"hard 2 2 2",
        named(name, case_of([hard(2, V2, V2)])),
        file,
    );
    show_labelled(rt, b"PAIR", pair(), file);
}

// Both version bytes, the order of the refusals, and a bad set.
fn refused_opened(rt: &impl Print) {
    let mut file = [170; 55];
    let _ = writer::write(pair(), &PAIR_TABLE, &mut file);
    file[4] = 1;
    show_labelled(rt, b"version 257", pair(), &file);
    file[3] = 0;
    show_labelled(rt, b"version 256", pair(), &file);
    file[2] = 0;
    show_labelled(rt, b"mark and version", pair(), &file);
    show_labelled(rt, b"four bytes", pair(), b"SHT\x01");
    show_labelled(rt, b"five bytes", pair(), b"SHT\x01\0");
    show_labelled(
        rt,
        b"hard 2 3 3, no bytes",
        named(*b"LATE\0\0\0\0\0\0\0\0\0\0\0\0", case_of([hard(2, V3, V3)])),
        &[0; 0],
    );
    let mut longer = [170; 55];
    let _ = writer::write(pair(), &PAIR_TABLE, &mut longer);
    longer[38] = 0;
    show_labelled(rt, b"a longer file, the start's entry 0", pair(), &longer);
    longer[37] = 1;
    show_labelled(rt, b"the same, and the last byte of S", pair(), &longer);
}

// The built tables of the example, and of a set with high bytes.
fn built_cases(rt: &impl Print) {
    show_built(rt, b"hard 2 1 3, soft 2 1,2 3", example(), &mut [170; 92]);
    show_built(rt, b"soft 16 1,16 16", wide(), &mut [170; 304]);
}

// What is written of the built table, and what is opened of that.
fn show_built(rt: &impl Print, label: &[u8], s: Set, file: &mut [u8]) {
    let mut table = [7; 272];
    let mut work = [9; 272];
    let _ = builder::build(s, &mut table, &mut work);
    show_write(rt, label, s, &table, file);
    show_labelled(rt, label, s, file);
}

fn main(rt: HostRuntime) {
    pair_written(&rt);
    refused_written(&rt);
    pair_damaged(&rt);
    tight_damaged(&rt);
    refused_opened(&rt);
    built_cases(&rt);
}
