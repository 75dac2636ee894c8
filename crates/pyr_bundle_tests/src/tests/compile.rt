use crate::tests::graphs::{HEAVY_DIAMOND, program_of};
use crate::tests::reading::prints_at_end;
use crate::tests::texts::DIAMOND;
use pyr_compile::{compile, plans_complete};
use pyr_graphtext::Program;
use pyr_size::sized_completes;
use std::alloc::Global;

// Whether the program, compiled for two processors, gives the bundle of this text.
fn compiles_to(alloc: Global, program: &Program, text: &[u8]) -> bool {
    match compile(alloc, program, 2) {
        Ok(bundle) => prints_at_end(alloc, &bundle, text),
        Err(_) => false,
    }
}

// The same of the program that has this text.
fn gives(alloc: Global, text: &[u8], bundle_text: &[u8]) -> bool {
    match program_of(alloc, text) {
        Some(program) => compiles_to(alloc, &program, bundle_text),
        None => false,
    }
}

#[test]
fn two_processors_share_the_heavy_diamond(rt: HostRuntime) {
    assert!(rt; gives(rt.alloc(), HEAVY_DIAMOND, DIAMOND));
    plans_complete();
    sized_completes();
}
