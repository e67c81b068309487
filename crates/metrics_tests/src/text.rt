//! The text as a whole, with ample memory, and what the system writes of a process.

use edge_metrics::{ConnectionCounts, Counts, Measured, resident_of, text_of};
use fetch_outcomes::{FetchTally, OriginTally};
use fragment_cache::CacheTally;
use std::alloc::Global;
use std::process::Abort;
use std::str;
use std::test::Fail;

const REQUESTS: &str = "# HELP esi_edge_requests_total Requests answered, by status.
# TYPE esi_edge_requests_total counter
esi_edge_requests_total{status=\"1xx\"} 0
esi_edge_requests_total{status=\"2xx\"} 1
esi_edge_requests_total{status=\"3xx\"} 0
esi_edge_requests_total{status=\"4xx\"} 0
esi_edge_requests_total{status=\"5xx\"} 1
# HELP esi_edge_sent_bytes_total Bytes of the bodies of responses.
# TYPE esi_edge_sent_bytes_total counter
esi_edge_sent_bytes_total 533
# HELP esi_edge_request_seconds Seconds from request to response.
# TYPE esi_edge_request_seconds histogram
esi_edge_request_seconds_bucket{le=\"0.001\"} 1
esi_edge_request_seconds_bucket{le=\"0.005\"} 1
esi_edge_request_seconds_bucket{le=\"0.01\"} 1
esi_edge_request_seconds_bucket{le=\"0.05\"} 1
esi_edge_request_seconds_bucket{le=\"0.1\"} 1
esi_edge_request_seconds_bucket{le=\"0.5\"} 1
esi_edge_request_seconds_bucket{le=\"1\"} 1
esi_edge_request_seconds_bucket{le=\"5\"} 2
esi_edge_request_seconds_bucket{le=\"10\"} 2
esi_edge_request_seconds_bucket{le=\"+Inf\"} 2
esi_edge_request_seconds_sum 2000750e-6
esi_edge_request_seconds_count 2
";

const CONNECTIONS: &str = "# HELP esi_edge_connections Open connections.
# TYPE esi_edge_connections gauge
esi_edge_connections 3
# HELP esi_edge_connections_parked Open connections that no thread holds.
# TYPE esi_edge_connections_parked gauge
esi_edge_connections_parked 2
# HELP esi_edge_connections_serving Open connections that a thread holds.
# TYPE esi_edge_connections_serving gauge
esi_edge_connections_serving 1
# HELP esi_edge_connections_accepted_total Accepted connections.
# TYPE esi_edge_connections_accepted_total counter
esi_edge_connections_accepted_total 21
# HELP esi_edge_accepts_failed_total Accepts that failed.
# TYPE esi_edge_accepts_failed_total counter
esi_edge_accepts_failed_total 1
";

const CACHE: &str = "# HELP esi_edge_cache_answers Answers that are kept.
# TYPE esi_edge_cache_answers gauge
esi_edge_cache_answers 7
# HELP esi_edge_cache_bytes Bytes of the bodies of kept answers.
# TYPE esi_edge_cache_bytes gauge
esi_edge_cache_bytes 4096
# HELP esi_edge_cache_lookups_total Answers asked for, by how they came.
# TYPE esi_edge_cache_lookups_total counter
esi_edge_cache_lookups_total{by=\"hit\"} 40
esi_edge_cache_lookups_total{by=\"join\"} 5
esi_edge_cache_lookups_total{by=\"lead\"} 9
esi_edge_cache_lookups_total{by=\"bypass\"} 2
# HELP esi_edge_cache_bridges_total Answers in place of a failing fetch.
# TYPE esi_edge_cache_bridges_total counter
esi_edge_cache_bridges_total 6
";

const FETCHES: &str = "# HELP esi_edge_fetches_total Fetches from origins, by their end.
# TYPE esi_edge_fetches_total counter
esi_edge_fetches_total{origin=\"www.example.com\",outcome=\"answered\"} 90
esi_edge_fetches_total{origin=\"www.example.com\",outcome=\"too_many\"} 1
esi_edge_fetches_total{origin=\"www.example.com\",outcome=\"at_rest\"} 2
esi_edge_fetches_total{origin=\"www.example.com\",outcome=\"connect\"} 3
esi_edge_fetches_total{origin=\"www.example.com\",outcome=\"timeout\"} 4
esi_edge_fetches_total{origin=\"www.example.com\",outcome=\"cut\"} 5
esi_edge_fetches_total{origin=\"www.example.com\",outcome=\"too_long\"} 6
esi_edge_fetches_total{origin=\"www.example.com\",outcome=\"coded\"} 7
esi_edge_fetches_total{origin=\"www.example.com\",outcome=\"status\"} 8
esi_edge_fetches_total{origin=\"www.example.com\",outcome=\"fields\"} 9
# HELP esi_edge_fetches_without_origin_total Fetches for which there is no origin.
# TYPE esi_edge_fetches_without_origin_total counter
esi_edge_fetches_without_origin_total 4
# HELP esi_edge_strays_total Times that an origin sent bytes unasked.
# TYPE esi_edge_strays_total counter
esi_edge_strays_total{origin=\"www.example.com\"} 10
";

const LOG: &str = "# HELP esi_edge_log_lines_lost_total Lines of the log that were lost.
# TYPE esi_edge_log_lines_lost_total counter
esi_edge_log_lines_lost_total 3
";

const MEMORY: &str = "# HELP process_resident_memory_bytes Resident memory size in bytes.
# TYPE process_resident_memory_bytes gauge
process_resident_memory_bytes 1806336
";

fn measured(resident: Option<u64>) -> Measured {
    let mut requests = Counts::new();
    requests.count(200, 500, 750);
    requests.count(502, 33, 2_000_000);
    Measured {
        requests,
        connections: ConnectionCounts {
            open: 3,
            parked: 2,
            serving: 1,
            accepted: 21,
            failed_accepts: 1,
        },
        cache: CacheTally {
            entries: 7,
            bytes: 4_096,
            hits: 40,
            joins: 5,
            leads: 9,
            bypasses: 2,
            bridges: 6,
        },
        without_origin: 4,
        lost_lines: 3,
        resident,
    }
}

fn one_origin(alloc: Global) -> Option<OriginTally> {
    Some(OriginTally {
        authority: Vec::from_slice(alloc, b"www.example.com").ok()?,
        fetches: FetchTally {
            answered: 90,
            too_many: 1,
            at_rest: 2,
            connect: 3,
            timeout: 4,
            cut: 5,
            too_long: 6,
            coded: 7,
            status: 8,
            fields: 9,
        },
        strays: 10,
    })
}

#[test]
fn each_number_is_told_in_its_place(rt: HostRuntime) {
    let origins = [one_origin(rt.alloc()).expect(&rt, "memory")];
    let text = text_of(rt.alloc(), &measured(Some(1_806_336)), &origins).expect(&rt, "memory");
    let text = str::from_utf8(text.as_slice()).expect(&rt, "UTF-8");
    let wanted = format!(in rt.alloc();
        "{REQUESTS}{CONNECTIONS}{CACHE}{FETCHES}{LOG}{MEMORY}"
    ).expect(&rt, "memory");
    assert_eq!(rt; text, wanted.as_str());
}

#[test]
fn what_is_not_known_is_not_told(rt: HostRuntime) {
    let origins = [one_origin(rt.alloc()).expect(&rt, "memory")];
    let text = text_of(rt.alloc(), &measured(None), &origins).expect(&rt, "memory");
    let text = str::from_utf8(text.as_slice()).expect(&rt, "UTF-8");
    let wanted = format!(in rt.alloc(); "{REQUESTS}{CONNECTIONS}{CACHE}{FETCHES}{LOG}").expect(
        &rt, "memory",
    );
    assert_eq!(rt; text, wanted.as_str());
}

#[test]
fn the_second_of_the_sizes_is_that_of_what_is_resident(rt: HostRuntime) {
    let rows: [(&[u8], Option<u64>); 5] = [
        (b"765 441 413 5 0 123 0\n", Some(1_806_336)),
        (
            b"1 4503599627370495 0 0 0 0 0\n",
            Some(18_446_744_073_709_547_520),
        ),
        (b"1 4503599627370496 0 0 0 0 0\n", None),
        (b"765 441\n", None),
        (b"", None),
    ];
    for (statm, resident) in rows {
        assert_eq!(rt; resident_of(statm), resident);
    }
}
