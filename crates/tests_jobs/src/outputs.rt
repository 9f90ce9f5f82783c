//! Outputs of maps that come in on standard input: nothing where the tests are run, and from tools/hostile those that it damaged.

use crate::fixtures::{put, put_shown, reduced};
use mr_mapside::{WorkFault, blocks};
use std::alloc::Global;
use std::io::{self, Read, Write};
use std::process::Abort;

// Adds what a reduce of wordcount makes of its block: the text behind its length, or the fault.
fn tell(rt: &impl Abort, alloc: Global, told: &mut Vec<u8>, reduce: u32, block: &[u8]) {
    match reduced(rt, alloc, reduce, (0, reduce), &[block]) {
        Ok(text) => {
            put_shown(rt, alloc, told, &text.len());
            put(rt, told, b" bytes\n");
            put(rt, told, &text)
        }
        Err(WorkFault::NoMemory) => panic!(rt; "no memory"),
        Err(fault) => {
            put_shown(rt, alloc, told, &fault);
            put(rt, told, b"\n")
        }
    }
}

// Adds one line that there are no such blocks, or what each reduce makes of its own.
fn tell_all(rt: &impl Abort, alloc: Global, told: &mut Vec<u8>, reduces: u32, output: &[u8]) {
    let Some(found) = blocks(output, reduces) else {
        return put(rt, told, b"no blocks\n");
    };
    for reduce in 0..reduces {
        match found.get(reduce) {
            Some(block) => tell(rt, alloc, told, reduce, block),
            None => put(rt, told, b"none\n"),
        }
    }
}

// What the reduces make of what came in: nothing, if that is nothing.
fn told_of(rt: &impl Abort, alloc: Global, input: &[u8]) -> Vec<u8> {
    let mut told = Vec::new(alloc);
    if let Some((reduces, output)) = input.split_first() {
        put(rt, &mut told, b"begin\n");
        tell_all(rt, alloc, &mut told, u32::from(*reduces), output);
        put(rt, &mut told, b"end\n");
    }
    told
}

// The first byte that comes in is the number of reduces, and the rest the output. Prints what the reduces make of it.
#[test]
fn output_of_standard_input(rt: HostRuntime) {
    let rt = &rt;
    let mut input = Vec::new(rt.alloc());
    let read = rt.reader().read_to_end(&mut input);
    read.expect(rt, "a fault");
    let told = told_of(rt, rt.alloc(), &input);
    let written = io::writer(rt).write_all(&told);
    written.expect(rt, "a fault");
}
