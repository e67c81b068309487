mod boards;
mod broken;
mod cases;
mod lookups;
mod owners;
mod pages;
mod plans;

use edge_types::{Answer, Control, NoMemory, Octets, PageUrl, SharedBytes};
use std::alloc::Global;
use std::process::Abort;

fn url_of(rt: &impl Abort, alloc: Global, text: &str) -> Result<PageUrl, NoMemory> {
    Ok(PageUrl::parse(alloc, text.as_bytes())?.expect(rt, "a URL"))
}

// The answer of a URL, whose body is processed if `esi` says so; `None` if the status isn't one.
fn answer(
    alloc: Global,
    url: PageUrl,
    status: u16,
    esi: bool,
    body: &str,
) -> Result<Option<Answer>, NoMemory> {
    let control = Control {
        esi,
        ..Control::default()
    };
    let body = SharedBytes::copy_of(alloc, body.as_bytes())?;
    Ok(Answer::got(url, status, Octets::empty(alloc), control, body))
}
