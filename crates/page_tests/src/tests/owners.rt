//! Owners of bytes and answers, and allocations that fail.

use edge_types::{
    Answer, Control, NoMemory, Octets, PageBody, PageUrl, Request, SharedAnswer, SharedBytes,
};
use esi_vars::pieces::LONG_VALUE;
use esi_vars::{Lookups, Part, parts, push_values, reference_at, substitute};
use std::alloc::Global;
use std::process::Abort;
use std::sync::Arc;
use std::test::Fail;

// A part, which has to be within the bytes.
fn part(
    rt: &impl Abort,
    whole: &SharedBytes,
    from: usize,
    to: usize,
) -> Result<SharedBytes, NoMemory> {
    assert!(rt; from <= to && to <= whole.len());
    whole.part(from, to)
}

// A part of a part of a text all of whose other owners are gone.
fn inner_part(rt: &impl Abort, alloc: Global) -> Result<SharedBytes, NoMemory> {
    let whole = SharedBytes::copy_of(alloc, b"one two")?;
    let two = part(rt, &whole, 4, 7)?;
    part(rt, &two, 1, 3)
}

#[test]
fn parts_outlive_the_owner_that_they_came_from(rt: HostRuntime) -> Result<(), Fail> {
    let found = inner_part(&rt, rt.alloc())?.into_bytes();
    assert!(rt; found.as_slice() == b"wo".as_slice());
    Ok(())
}

#[test]
fn pieces_are_shared_by_number(rt: HostRuntime) -> Result<(), Fail> {
    let mut body = PageBody::new(rt.alloc());
    body.push(SharedBytes::copy_of(rt.alloc(), b"one")?)?;
    for (number, wanted) in [(0, Some(b"one".as_slice())), (1, None)] {
        let piece = body.shared_piece(number)?;
        assert_eq!(rt; piece.as_ref().map(|it| it.as_bytes()), wanted);
    }
    Ok(())
}

// The answer of a second owner of this URL.
fn answer(rt: &impl Abort, alloc: Global, url: &PageUrl) -> Result<Arc<Answer>, NoMemory> {
    let got = Answer::got(
        url.share()?,
        204,
        Octets::empty(alloc),
        Control::default(),
        SharedBytes::new(),
    );
    Ok(Arc::new(alloc, got.expect(rt, "an answer"))?)
}

#[test]
fn second_owners_have_the_same_answer(rt: HostRuntime) -> Result<(), Fail> {
    let url = PageUrl::parse(rt.alloc(), b"http://a.test/x")?.ok_or("a URL")?;
    let owner = SharedAnswer::of(answer(&rt, rt.alloc(), &url)?);
    let second = owner.share()?;
    assert!(rt; *second.get().url() == url);
    assert!(rt; *second.as_arc().url() == url);
    assert!(rt; *owner.into_arc().url() == url);
    Ok(())
}

// The pieces of a text whose reference has a cookie of so many bytes for its value.
fn pieces(alloc: Global, text: &[u8], bytes: usize) -> Result<PageBody, NoMemory> {
    let parts = parts(alloc, &SharedBytes::copy_of(alloc, text)?)?;
    let mut request = Request::empty();
    request.cookie = cookies(alloc, bytes)?;
    pieces_of(alloc, &request, parts.as_slice())
}

// Cookies of which the second one has so many bytes.
fn cookies(alloc: Global, bytes: usize) -> Result<SharedBytes, NoMemory> {
    let mut cookies = b"a=1; g=".to_vec(alloc)?;
    cookies.extend_from_slice("x".repeat(alloc, bytes)?.as_bytes())?;
    cookies.extend_from_slice(b"; b=2")?;
    SharedBytes::of(cookies)
}

fn pieces_of(alloc: Global, request: &Request, parts: &[Part]) -> Result<PageBody, NoMemory> {
    let mut body = PageBody::new(alloc);
    push_values(alloc, request, parts, &mut body, 1000, &mut Lookups::none())?;
    Ok(body)
}

#[test]
fn long_values_are_pieces(rt: HostRuntime) -> Result<(), Fail> {
    let text = b"<$(HTTP_COOKIE{g})>$(HTTP_COOKIE{a})".as_slice();
    let joined = pieces(rt.alloc(), text, LONG_VALUE - 1)?;
    assert!(rt; joined.mark() == 1 && joined.len() == LONG_VALUE + 2);
    let apart = pieces(rt.alloc(), text, LONG_VALUE)?;
    assert!(rt; apart.mark() == 3);
    assert!(rt; apart.piece(0) == Some(b"<".as_slice()));
    assert!(rt;
        apart.piece(1).is_some_and(|it| it.len() == LONG_VALUE
            && it.iter().all(|byte| *byte == b'x'))
    );
    assert!(rt; apart.piece(2) == Some(b">1".as_slice()));
    Ok(())
}

#[test]
fn values_past_the_limit_are_refused(rt: HostRuntime) -> Result<(), Fail> {
    assert!(rt; pieces(rt.alloc(), b"$(HTTP_COOKIE{g})", 1000).is_ok());
    assert!(rt; pieces(rt.alloc(), b"$(HTTP_COOKIE{g})$(HTTP_COOKIE{a})", 1000).is_err());
    Ok(())
}

// A text with its references replaced, for a request with a cookie.
fn replaced(alloc: Global, cookie: &[u8], text: &[u8]) -> Result<Vec<u8>, NoMemory> {
    let parts = parts(alloc, &SharedBytes::copy_of(alloc, text)?)?;
    let mut request = Request::empty();
    request.cookie = SharedBytes::copy_of(alloc, cookie)?;
    substitute(alloc, &request, parts.as_slice())
}

// If the Nth allocation fails (`rt try --test --fail-alloc N`), that is reported, or the answer is whole.
#[test]
fn a_refused_growth_is_told(rt: HostRuntime) {
    match replaced(rt.alloc(), b"g=1", b"a$(HTTP_COOKIE{g}|'none')b$(X|'c')") {
        Ok(found) => assert!(rt; found.as_slice() == b"a1bc".as_slice()),
        Err(NoMemory) => {}
    }
    match reference_at(rt.alloc(), b"$(X{k}|'c')d") {
        Ok(found) => assert!(rt; found.is_some()),
        Err(NoMemory) => {}
    }
}
