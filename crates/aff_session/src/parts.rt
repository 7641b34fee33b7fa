//! The requests before `after` and those behind it.
ghost use Rattle.std.specs.Prelude.{◌≡◌, ◌+◌, ◌≤◌, ◌↔◌, IsTrue, length, take, drop, if◌then◌else◌};
ghost use Rattle.aff_session.specs.Answers.{late_of, live_of};

use aff_script::Request;

// What is asked while the image grows.
pub(crate) fn live_part(requests: &[Request]) -> &[Request]
    ensures { result.now ≡ live_of requests.now }
{
    &requests[..live_count(requests)]
}

// What is asked of the whole list: all, where nothing was asked before.
pub(crate) fn late_part(was_live: bool, requests: &[Request]) -> &[Request]
    ensures { result.now ≡ (if was_live then late_of requests.now else requests.now) }
{
    if !was_live {
        return requests;
    }
    let count = live_count(requests);
    if count < requests.len() {
        &requests[count + 1..]
    } else {
        &[]
    }
}

// How many requests stand before `after`.
fn live_count(requests: &[Request]) -> usize
    ensures within { result ≤ length requests.now }
    ensures live { take result requests.now ≡ live_of requests.now }
    ensures late { drop (result + 1) requests.now ≡ late_of requests.now }
{
    for (count, request) in requests.iter().enumerate() {
        if is_after(*request) {
            return count;
        }
    }
    requests.len()
}

fn is_after(request: Request) -> bool
    ensures { IsTrue result ↔ (request ≡ Request.After) }
{
    match request {
        Request::After => true,
        Request::Read { .. } | Request::Raise { .. } | Request::Await(_) => false,
    }
}
