//! Finds a row's function by the name of its kind.
use crate::{benches, runs, words};
use log_rows::RowError;
use run_rows::journals::{OneThreadRunner, Runner, SharedRunner};
use run_rows::shared::SharedJournal;
use script_sweep::{Swept, ThisJournal};
use std::alloc::Global;
use std::sync::Wait;

/// A row's result; or its text is malformed, or memory ran out.
pub type Found = Result<String, RowError>;

/// The result of a row of this kind; `None` if there is no such kind.
pub fn found<R: Wait>(rt: &R, alloc: Global, kind: &str, given: &str) -> Option<Found> {
    if let Some(found) = found_over_both(rt, alloc, kind, given) {
        return Some(found);
    }
    if let Some(found) = found_of_run(alloc, kind, given) {
        return Some(found);
    }
    if let Some(found) = found_of_command(alloc, kind, given) {
        return Some(found);
    }
    if let Some(found) = found_of_log(alloc, kind, given) {
        return Some(found);
    }
    if let Some(found) = found_of_opening(alloc, kind, given) {
        return Some(found);
    }
    found_of_format(alloc, kind, given)
}

/// The result of a row on runs, over the journal of one thread and over a shared one.
fn found_over_both<R: Wait>(rt: &R, alloc: Global, kind: &str, given: &str) -> Option<Found> {
    let alone = found_over(alloc, &OneThreadRunner, kind, given).or(swept(
        alloc,
        &ThisJournal,
        kind,
        given,
    ));
    let Some(alone) = alone else {
        return None;
    };
    let shared = found_over(alloc, &SharedRunner(rt), kind, given).or(swept(
        alloc,
        &SharedJournal(rt),
        kind,
        given,
    ));
    match shared {
        Some(shared) => Some(both(alloc, alone, shared)),
        None => None,
    }
}

/// The result over both journals, once if both are the same.
fn both(alloc: Global, alone: Found, shared: Found) -> Found {
    let (alone, shared) = (alone?, shared?);
    if alone.as_str() == shared.as_str() {
        return Ok(alone);
    }
    Ok(format!(in alloc; "{alone}\nover the journal that threads share:\n{shared}")?)
}

/// The result of a row on runs over this journal.
fn found_over<J: Runner>(alloc: Global, journal: &J, kind: &str, given: &str) -> Option<Found> {
    match kind {
        "bytes" => Some(run_rows::changed::bytes(alloc, journal, given)),
        "changed" => Some(run_rows::changed::changed(alloc, journal, given)),
        "failed_copies" => Some(run_rows::images::failed_copies(alloc, journal, given)),
        "failures" => Some(run_rows::failures::failures(alloc, journal, given)),
        "images" => Some(run_rows::images::images(alloc, journal, given)),
        "reopened_devices" => Some(run_rows::reopened::reopened_devices(alloc, journal, given)),
        "run" => Some(runs::run(alloc, journal, given)),
        "stops" => Some(run_rows::stops::stops(alloc, journal, given)),
        "stops_of_openings" => Some(run_rows::stops::stops_of_openings(alloc, journal, given)),
        _ => None,
    }
}

/// The result of a row on sweeps of this journal.
fn swept<J: Swept>(alloc: Global, journal: &J, kind: &str, given: &str) -> Option<Found> {
    match kind {
        "failure_sweeps" => Some(run_rows::sweeps::failure_sweeps(alloc, journal, given)),
        "sweeps" => Some(run_rows::sweeps::sweeps(alloc, journal, given)),
        _ => None,
    }
}

/// The result of another row on runs and scripts.
fn found_of_run(alloc: Global, kind: &str, given: &str) -> Option<Found> {
    match kind {
        "closes" => Some(run_rows::closes::closes(alloc, given)),
        "ignored_failures" => Some(run_rows::sweeps::ignored_failures(alloc, given)),
        "interrupted_closes" => Some(run_rows::closes::interrupted_closes(alloc, given)),
        "operations" => Some(run_rows::scripts::operations(alloc, given)),
        "script" => Some(run_rows::scripts::script(alloc, given)),
        "verdict" => Some(run_rows::verdicts::verdict(alloc, given)),
        "wrong_journals" => Some(run_rows::sweeps::wrong_journals(alloc, given)),
        _ => None,
    }
}

/// The result of a row on the commands of `jbench`.
fn found_of_command(alloc: Global, kind: &str, given: &str) -> Option<Found> {
    match kind {
        "bench" => Some(benches::bench(alloc, given)),
        "words" => Some(words::words(alloc, given)),
        _ => None,
    }
}

/// The result of a row on logs and devices.
fn found_of_log(alloc: Global, kind: &str, given: &str) -> Option<Found> {
    match kind {
        "counted_dumps" => Some(log_rows::dumping::counted_dumps(alloc, given)),
        "crashed_images" => Some(log_rows::devices::crashed_images(alloc, given)),
        "dumps" => Some(log_rows::dumping::dumps(alloc, given)),
        "memory_calls" => Some(log_rows::devices::memory_calls(alloc, given)),
        "short_dumps" => Some(log_rows::dumping::short_dumps(alloc, given)),
        _ => None,
    }
}

/// The result of a row on openings.
fn found_of_opening(alloc: Global, kind: &str, given: &str) -> Option<Found> {
    match kind {
        "changed_bytes" => Some(log_rows::openings::changed_bytes(alloc, given)),
        "failed_openings" => Some(log_rows::openings::failed_openings(alloc, given)),
        "failed_upgrades" => Some(log_rows::openings::failed_upgrades(alloc, given)),
        "forgetful_openings" => Some(log_rows::openings::forgetful_openings(alloc, given)),
        "opening_calls" => Some(log_rows::openings::opening_calls(alloc, given)),
        "openings" => Some(log_rows::openings::openings(alloc, given)),
        "openings_before_damage" => Some(log_rows::openings::openings_before_damage(alloc, given)),
        "plans" => Some(log_rows::openings::plans(alloc, given)),
        "random_logs" => Some(log_rows::openings::random_logs(alloc, given)),
        "second_openings" => Some(log_rows::openings::second_openings(alloc, given)),
        "stopped_upgrades" => Some(log_rows::openings::stopped_upgrades(alloc, given)),
        "upgrades" => Some(log_rows::openings::upgrades(alloc, given)),
        _ => None,
    }
}

/// The result of a row on blocks, the ring and layouts.
fn found_of_format(alloc: Global, kind: &str, given: &str) -> Option<Found> {
    match kind {
        "allowed_blocks" => Some(log_rows::formats::allowed_blocks(alloc, given)),
        "capacities" => Some(log_rows::formats::capacities(alloc, given)),
        "escapes" => Some(log_rows::formats::escapes(alloc, given)),
        "formatted_superblocks" => Some(log_rows::formats::formatted_superblocks(alloc, given)),
        "full_blocks" => Some(log_rows::formats::full_blocks(alloc, given)),
        "headers" => Some(log_rows::formats::headers(alloc, given)),
        "needs" => Some(log_rows::formats::needs(alloc, given)),
        "parts" => Some(log_rows::formats::parts(alloc, given)),
        "places" => Some(log_rows::formats::places(alloc, given)),
        "read_blocks" => Some(log_rows::formats::read_blocks(alloc, given)),
        "ring_calls" => Some(log_rows::formats::ring_calls(alloc, given)),
        "started_superblocks" => Some(log_rows::formats::started_superblocks(alloc, given)),
        "superblock_fields" => Some(log_rows::formats::superblock_fields(alloc, given)),
        "tested_superblocks" => Some(log_rows::formats::tested_superblocks(alloc, given)),
        "written_blocks" => Some(log_rows::formats::written_blocks(alloc, given)),
        _ => None,
    }
}
