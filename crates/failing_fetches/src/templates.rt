//! Templates that a cache makes ready.

use crate::sources::cache;
use allocation_tools::printing::{answers, calls, out_of_memory, word};
use allocation_tools::values::{answer, stored};
use answer_sources::Source;
use edge_types::{Answer, Control, NoMemory};
use plan_compiler::{Form, Prepared};
use std::alloc::{AllocGlobal, Global};
use std::io::Print;
use std::sync::{Arc, Wait};
use std::time::Clock;

const TEMPLATE: &str = "A<esi:include src='/x'/>";

// A template that may be stored.
fn template(alloc: Global) -> Option<Arc<Answer>> {
    let control = Control {
        esi: true,
        ..stored()
    };
    answer(alloc, "/p", control, TEMPLATE)
}

/// Makes ready what isn't kept yet.
pub fn prepare_by_cache<R: Wait + Clock + AllocGlobal + Print>(rt: &R, name: &str) -> Option<()> {
    prepare_twice(rt, name, &cache(rt.alloc())?)
}

/// Makes ready what is kept.
pub fn prepare_from_cache<R: Wait + Clock + AllocGlobal + Print>(rt: &R, name: &str) -> Option<()> {
    prepare_kept(rt, name, &cache(rt.alloc())?)
}

fn prepare_kept<R, S>(rt: &R, name: &str, source: &S) -> Option<()>
where
    R: AllocGlobal + Print,
    S: Source<R>,
{
    source.prepared(rt, rt.alloc(), template(rt.alloc())?).ok()?;
    prepare_twice(rt, name, source)
}

// Makes a template ready, and then once more with memory.
fn prepare_twice<R, S>(rt: &R, name: &str, source: &S) -> Option<()>
where
    R: AllocGlobal + Print,
    S: Source<R>,
{
    let template = template(rt.alloc())?;
    let again = Arc::try_clone(&template).ok()?;
    calls(rt, name)?;
    let prepared = source.prepared(rt, rt.alloc(), template);
    answers(rt)?;
    print_prepared(rt, &prepared)?;
    word(rt, "again")?;
    print_prepared(rt, &source.prepared(rt, rt.alloc(), again))
}

fn print_prepared(rt: &impl Print, prepared: &Result<Prepared, NoMemory>) -> Option<()> {
    match prepared {
        Ok(prepared) => print_form(rt, prepared.form()),
        Err(NoMemory) => out_of_memory(rt),
    }
}

fn print_form(rt: &impl Print, form: &Form) -> Option<()> {
    match form {
        Form::Plain => word(rt, "plain"),
        Form::Planned(_) => word(rt, "planned"),
        Form::BadAt(_) => word(rt, "bad"),
    }
}
