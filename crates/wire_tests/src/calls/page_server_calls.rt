//! What no clause says: the rows of connections in memory, whole and in pieces, and each call that fails.
ghost use Rattle.std.specs.Prelude.{◌≡◌};

use bridge_ports::{Conn, Door, Failed, MemoryConn, MemorySink, MemorySource};
use label_sets::{Bytes, List, Memory};
use page_server::{Asked, ReplyStatus, ServeFault, hear_request, say_reply};
use std::alloc::{AllocError, Global};
use std::io::{Read, Write};
use std::net::{Ipv4Addr, SocketAddr, TcpListener, TcpStream};
use std_edge::NetDoor;

/// What the reply to a request carries: always the same page.
fn page_for(asked: &Asked) -> &'static [u8] {
    match asked {
        Asked::Page(_) => b"# EOF\n",
        _ => b"",
    }
}

/// What comes of a connection.
fn serve<K: Conn>(alloc: Global, conn: &mut K) -> Result<ReplyStatus, ServeFault> {
    let asked = hear_request(alloc, conn)?;
    let page = page_for(&asked);
    say_reply(alloc, conn, asked.status(), page)
}

/// The numbers of calls that fail.
fn numbers(alloc: Global, failing: &[u64]) -> Result<List<u64>, Memory> {
    List::from_vec(Vec::from_slice(alloc, failing)?)
}

/// What such a connection hands out.
fn source(alloc: Global, request: &[u8], failing: &[u64]) -> Result<MemorySource, Memory> {
    let failing = numbers(alloc, failing)?;
    Ok(MemorySource::new(Bytes::from_slice(alloc, request)?, failing))
}

/// What such a connection takes.
fn sink(alloc: Global, failing: &[u64]) -> Result<MemorySink, Memory> {
    MemorySink::new(alloc, 1_000, numbers(alloc, failing)?)
}

/// A connection over which this request comes, and on which these reads and these writes fail.
fn conn(alloc: Global, request: &[u8], failing: (&[u64], &[u64])) -> Result<MemoryConn, Memory> {
    let source = source(alloc, request, failing.0)?;
    match sink(alloc, failing.1) {
        Ok(sink) => Ok(MemoryConn::new(source, sink)),
        Err(AllocError) => {
            drop(source);
            Err(AllocError)
        }
    }
}

/// What comes of such a connection, and how many bytes were written, where these are the front of this reply.
fn served(
    alloc: Global,
    request: &[u8],
    failing: (&[u64], &[u64]),
    reply: &str,
) -> Result<(Result<ReplyStatus, ServeFault>, Option<usize>), Memory> {
    let mut conn = conn(alloc, request, failing)?;
    let came = serve(alloc, &mut conn);
    let held = conn.held();
    let is_front = reply.as_bytes().starts_with(held);
    let length = held.len();
    drop(conn);
    Ok((came, is_front.then_some(length)))
}

const GET: &[u8] = b"GET /federate HTTP/1.1\r\nHost: a\r\n\r\n";

const PAGE: &str =
    "HTTP/1.1 200 OK\r\nContent-Type: application/openmetrics-text; version=1.0.0; charset=utf-8\r\nContent-Length: 6\r\nConnection: close\r\n\r\n# EOF\n";

const BAD: &str = "HTTP/1.1 400 Bad Request\r\nContent-Length: 0\r\nConnection: close\r\n\r\n";

const NONE: &str = "HTTP/1.1 404 Not Found\r\nContent-Length: 0\r\nConnection: close\r\n\r\n";

const OTHER: &str =
    "HTTP/1.1 405 Method Not Allowed\r\nAllow: GET\r\nContent-Length: 0\r\nConnection: close\r\n\r\n";

/// Requests, and what each is answered.
const REQUESTS: &[(&[u8], ReplyStatus, u16, &str)] = &[
    (GET, ReplyStatus::Page, 200, PAGE),
    (
        b"POST /federate HTTP/1.1\r\nHost: a\r\n\r\n",
        ReplyStatus::NotAllowed,
        405,
        OTHER,
    ),
    (
        b"GET /x HTTP/1.1\r\nHost: a\r\n\r\n",
        ReplyStatus::NotFound,
        404,
        NONE,
    ),
    (
        b"GET /federate?match%5B%5D=up&match[]=%7Bjob%3D%22a%22%7D HTTP/1.1\r\nHost: a\r\n\r\n",
        ReplyStatus::Page,
        200,
        PAGE,
    ),
    (
        b"GET /federate?match%5B%5D=%7B HTTP/1.1\r\nHost: a\r\n\r\n",
        ReplyStatus::BadRequest,
        400,
        BAD,
    ),
    (
        b"GET /x?match%5B%5D=%7B HTTP/1.1\r\nHost: a\r\n\r\n",
        ReplyStatus::NotFound,
        404,
        NONE,
    ),
    (
        b"POST /federate?match%5B%5D=%7B HTTP/1.1\r\nHost: a\r\n\r\n",
        ReplyStatus::NotAllowed,
        405,
        OTHER,
    ),
    (b"GET", ReplyStatus::BadRequest, 400, BAD),
    (b"", ReplyStatus::BadRequest, 400, BAD),
    (
        b" GET / HTTP/1.1\r\n\r\n",
        ReplyStatus::BadRequest,
        400,
        BAD,
    ),
];

#[test]
fn requests_are_answered(rt: HostRuntime) {
    for (request, status, code, reply) in REQUESTS {
        let came = served(rt.alloc(), request, (&[], &[]), reply);
        assert!(rt; came == Ok((Ok(*status), Some(reply.len()))) && status.code() == *code);
    }
}

/// How many selectors a request asks for the page by, where it asks for it.
fn selectors_asked(alloc: Global, request: &[u8]) -> Result<Option<usize>, Memory> {
    let mut conn = conn(alloc, request, (&[], &[]))?;
    let asked = hear_request(alloc, &mut conn);
    drop(conn);
    match asked {
        Ok(Asked::Page(selectors)) => Ok(Some(selectors.len())),
        _ => Ok(None),
    }
}

#[test]
fn selectors_are_read_of_the_query(rt: HostRuntime) {
    const ROWS: &[(&[u8], Option<usize>)] = &[
        (b"GET /federate HTTP/1.1\r\n\r\n", Some(0)),
        (b"GET /federate? HTTP/1.1\r\n\r\n", Some(0)),
        (b"GET /federate?match=up HTTP/1.1\r\n\r\n", Some(0)),
        (b"GET /federate?match[]=a?b HTTP/1.1\r\n\r\n", None),
        (b"GET /federate?match[]=up HTTP/1.1\r\n\r\n", Some(1)),
        (
            b"GET /federate?match%5B%5D=up&a=b&match%5B%5D=%7Bjob!%3D%22a%22%7D HTTP/1.1\r\n\r\n",
            Some(2),
        ),
    ];
    for (request, count) in ROWS {
        assert!(rt; selectors_asked(rt.alloc(), request) == Ok(*count));
    }
}

#[test]
fn failed_calls_are_told(rt: HostRuntime) {
    const ROWS: &[((&[u64], &[u64]), ServeFault)] = &[
        ((&[1], &[]), ServeFault::Read),
        ((&[], &[1]), ServeFault::Write),
    ];
    for (failing, fault) in ROWS {
        assert!(rt; served(rt.alloc(), GET, *failing, PAGE) == Ok((Err(*fault), Some(0))));
    }
}

/// A peer that connected there and sent this.
fn peer_of(rt: &HostRuntime, to: SocketAddr, request: &[u8]) -> Option<TcpStream> {
    let mut peer = TcpStream::connect(rt, to).ok()?;
    peer.write_all(request).ok()?;
    Some(peer)
}

/// What the first connection at a door is answered, where it comes.
fn served_at(rt: HostRuntime, listener: TcpListener) -> Option<Result<ReplyStatus, ServeFault>> {
    let alloc = rt.alloc();
    let mut door = NetDoor::new(rt, listener);
    match door.accept() {
        Ok(mut conn) => {
            let came = serve(alloc, &mut conn);
            door.close(conn);
            Some(came)
        }
        Err(Failed) => None,
    }
}

/// The first bytes that come to a peer.
fn front_of(mut peer: TcpStream) -> Option<[u8; 15]> {
    let mut into = [0u8; 15];
    peer.read_exact(&mut into).ok()?;
    Some(into)
}

/// What the connection of a peer over loopback is answered, and the first bytes of the reply.
fn served_over_loopback(
    rt: &HostRuntime,
    request: &[u8],
) -> Option<(Option<Result<ReplyStatus, ServeFault>>, [u8; 15])> {
    let listener = TcpListener::bind(rt, (Ipv4Addr::LOCALHOST, 0)).ok()?;
    let at = listener.local_addr().ok()?;
    let peer = peer_of(rt, at, request)?;
    let came = served_at(*rt, listener);
    Some((came, front_of(peer)?))
}

#[test]
fn page_is_served_over_loopback(rt: HostRuntime) {
    let served = served_over_loopback(&rt, GET);
    assert!(rt; served == Some((Some(Ok(ReplyStatus::Page)), *b"HTTP/1.1 200 OK")));
}
