//! The server: pages over a cache that all clients share, what origins answer, and the machine's clock.

use edge_commands::Status;
use edge_connections::{ServeEnd, ServerRuntime, Sockets};
use edge_parts::{Lookups, Numbers, Operator, Parts, ServerOptions, Stop, listening, room_of};
use edge_reports::{Kept, Reports};
use edge_setup::Flag;
use hyper_edge::{EdgeService, Journal, serve_accepts};
use operator_http::Operated;
use std::alloc::AllocGlobal;
use std::fs::File;
use std::io::{Eprint, Print};
use std::net::{Net, TcpListener, TcpStream};
use std::random::RandomSource;
use std::rt::Files;
use std::sync::Arc;
use std::thread;
use std::time::Clock;

/// Runs a server with these options, until its number of connections have been accepted, or it is stopped, and they have
/// ended. Its origins and names are taken out of them.
pub(crate) fn serve<R>(rt: &R, options: &mut ServerOptions) -> Result<ServeEnd, Status>
where
    R: ServerRuntime + Files<File = File> + Print + Eprint + Send + Sync,
    R: Net<Stream = TcpStream, Listener = TcpListener>,
{
    options.at_once.connections = room_of(rt, Numbers::of(options));
    let Parts {
        cache,
        reports,
        lookups,
    } = Parts::of(rt, options)?;
    let service = service_of(rt, cache, options)?;
    opened(rt, &service, &reports, lookups.as_ref(), options)
}

// What a server that runs is made of.
#[derive(Drop)]
struct Running<'a, R> {
    operator: Option<&'a Operator>,
    sockets: &'a Sockets<Stop>,
    service: &'a EdgeService<Kept, R>,
    reports: &'a Arc<Reports>,
    options: &'a ServerOptions,
}

// Listens for clients, and for the operator if there is one, and serves what the service answers.
fn opened<R>(
    rt: &R,
    service: &EdgeService<Kept, R>,
    reports: &Arc<Reports>,
    lookups: Option<&Lookups>,
    options: &mut ServerOptions,
) -> Result<ServeEnd, Status>
where
    R: ServerRuntime + Files<File = File> + Print + Eprint + Send + Sync,
    R: Net<Stream = TcpStream, Listener = TcpListener>,
{
    let operator = operator_of(rt, options)?;
    let sockets = listens(rt, options, operator.as_ref())?;
    let running = Running {
        operator: operator.as_ref(),
        sockets: &sockets,
        service,
        reports,
        options,
    };
    match lookups {
        Some(lookups) => served_while_looking_up(rt, lookups, &running),
        None => served(rt, &running),
    }
}

// Where the operator is answered, if there is one. The names by which he may ask are taken out of the options.
fn operator_of<R>(rt: &R, options: &mut ServerOptions) -> Result<Option<Operator>, Status>
where
    R: AllocGlobal + Clock + RandomSource,
    R: Net<Stream = TcpStream, Listener = TcpListener>,
{
    let names = options.admin_hosts.take();
    match options.addresses.admin {
        Some(address) => Ok(Some(Operator::at(rt, address, names)?)),
        None => Ok(None),
    }
}

// Listens for clients, and says where.
fn listens<R>(
    rt: &R,
    options: &ServerOptions,
    operator: Option<&Operator>,
) -> Result<Sockets<Stop>, Status>
where
    R: AllocGlobal + Files<File = File> + Print,
    R: Net<Stream = TcpStream, Listener = TcpListener>,
{
    let (sockets, address) = listening(rt, options, operator)?;
    println!(rt; "listening on {address}")?;
    Ok(sockets)
}

// Serves until the server has ended, while a thread of its own looks up names. Refused if that can't be started.
fn served_while_looking_up<R>(
    rt: &R,
    lookups: &Lookups,
    running: &Running<'_, R>,
) -> Result<ServeEnd, Status>
where
    R: ServerRuntime + Files<File = File> + Print + Eprint + Send + Sync,
    R: Net<Stream = TcpStream, Listener = TcpListener>,
{
    thread::scope(thread::scope_env(), rt, |scope| {
        if scope.spawn(move || lookups.run(rt)).is_err() {
            return Err(Status::NoMemory);
        }
        let end = served(rt, running);
        lookups.end(rt);
        end
    })
}

// Serves until the server has ended.
fn served<R>(rt: &R, running: &Running<'_, R>) -> Result<ServeEnd, Status>
where
    R: ServerRuntime + Files<File = File> + Print + Eprint + Send + Sync,
    R: Net<Stream = TcpStream, Listener = TcpListener>,
{
    let Running {
        operator,
        sockets,
        service,
        reports,
        options,
    } = *running;
    let end = match operator {
        Some(operator) => {
            println!(rt; "answering the operator on {}", operator.address)?;
            serve_beside(rt, operator, sockets, service, reports, options)?
        }
        None => serve_all(rt, sockets, service, &**reports, options),
    };
    reports.log.finish(rt);
    Ok(end)
}

// Serves clients until the server has ended.
fn serve_all<R, J>(
    rt: &R,
    sockets: &Sockets<Stop>,
    service: &EdgeService<Kept, R>,
    reports: &J,
    options: &ServerOptions,
) -> ServeEnd
where
    R: ServerRuntime + Eprint + Send + Sync,
    R: Net<Stream = TcpStream, Listener = TcpListener>,
    J: Journal<R> + Sync,
{
    serve_accepts(
        rt,
        sockets,
        service,
        reports,
        options.at_once,
        options.accept,
    )
}

// The same, while a thread of its own answers the operator. Refused if that can't be started.
fn serve_beside<R, D>(
    rt: &R,
    operator: &Operator,
    sockets: &Sockets<Stop>,
    service: &EdgeService<Kept, R>,
    reports: &Arc<D>,
    options: &ServerOptions,
) -> Result<ServeEnd, Status>
where
    R: ServerRuntime + Eprint + Send + Sync,
    R: Net<Stream = TcpStream, Listener = TcpListener>,
    D: Operated<R> + Journal<R> + Send + Sync + Drop,
{
    thread::scope(thread::scope_env(), rt, |scope| {
        let answers = scope.spawn(move || operator.listener.serve(rt, reports));
        if answers.is_err() {
            return Err(Status::NoMemory);
        }
        let end = serve_all(rt, sockets, service, &**reports, options);
        operator.listener.close();
        Ok(end)
    })
}

// What answers requests, from this cache.
fn service_of<R>(
    rt: &R,
    cache: Arc<Kept>,
    options: &mut ServerOptions,
) -> Result<EdgeService<Kept, R>, Status>
where
    R: RandomSource + AllocGlobal + Clone + Drop,
{
    let Ok(own) = rt.clone() else {
        return Err(Status::NoMemory);
    };
    let service = EdgeService::new(own, rt.alloc(), cache, options.pages)?;
    let mut service = telling(service.limited_to(options.page), options);
    if let Some(name) = options.name.take() {
        service = service.named(name);
    }
    if let Some(field) = &options.forwarded {
        // The setup has a name of a field, so only memory may be missing.
        let Ok(told) = service.forwarded_by(field.as_slice()) else {
            return Err(Status::NoMemory);
        };
        service = told;
    }
    if options.flags.has(Flag::Head) {
        service = service.answering_head();
    }
    if options.flags.has(Flag::Etag) {
        service = service.giving_tags();
    }
    if options.flags.has(Flag::AbortOnClose) {
        service = service.aborting_on_close();
    }
    Ok(service)
}

// The same, which tells the origins of private URLs what the options name of the reader. The names are taken out of them.
fn telling<R>(service: EdgeService<Kept, R>, options: &mut ServerOptions) -> EdgeService<Kept, R>
where
    R: RandomSource + AllocGlobal + Clone + Drop,
{
    let mut service = service;
    if let Some(names) = options.private.cookies.take() {
        service = service.telling_cookies(names);
    }
    if let Some(names) = options.private.fields.take() {
        service = service.telling_fields(names);
    }
    service
}
