// The header of a schedule, read line by line into a small value, from which the net is made once.

#![tactic(auto)]

ghost use Rattle.std.specs.Prelude.{◌≡◌, suc, ◌+◌, ◌≤◌};
ghost use Rattle.net.specs.Header.{made_net, begun_net};
ghost use Rattle.schedule.specs.Walk.{net_step, id_step, id_steps, mark_step, faulty_step, repeat, header_walk};
ghost use Rattle.stored_walk.specs.State.{
  most_lines,
  most_named_line,
  most_header_line,
  replaying,
  unread_net,
  refused_net,
  onward_header,
};

use base_identifiers::{id_refusal, named_ids};
use faulty_form::faulty_line;
use faulty_links::{Faulty, no_faulty};
use faulty_naming::name_faulty;
use header_forms::{id_line, net_line};
use limits::refusal::FORM;
use limits::{MOST_BASES, size_refusal};
use lines::bases::Two;
use net::Header;
use text::number::Number;

// No base has an identifier yet, and no link is faulty.
fn fresh(n: u8, t: u8, at: usize, line: usize) -> Header
    ensures { begun_net result ≡ made_net n t at line }
{
    Header {
        n,
        t,
        ids: [0u32; MOST_BASES],
        faulty: no_faulty(),
        at,
        line,
        refusal: 0,
    }
}

// The next line is turned down.
fn refuse(header: Header, number: u8) -> Header
    ensures { begun_net result ≡ refused_net number (begun_net header) }
{
    let mut after = header;
    after.refusal = number;
    after
}

// The next line names identifiers or links, and another begins behind it.
fn onward(header: Header, ids: [u32; MOST_BASES], faulty: Faulty, next: usize) -> Header
    requires { header.line ≤ most_lines }
    ensures { result ≡ onward_header header ids faulty next }
{
    Header {
        n: header.n,
        t: header.t,
        ids,
        faulty,
        at: next,
        line: header.line + 1,
        refusal: header.refusal,
    }
}

// `net n t`
fn net_step(s: &[u8]) -> Header
    ensures { begun_net result ≡ net_step replaying s.now unread_net }
{
    let Two::Both(n, t, next) = net_line(s, 0) else {
        return refuse(fresh(0, 0, 0, 1), FORM);
    };
    let refusal = size_refusal(n as usize, t as usize);
    if refusal != 0 {
        return refuse(fresh(0, 0, 0, 1), refusal);
    }
    fresh(n as u8, t as u8, next, 2)
}

// `id b v`
fn id_step(s: &[u8], b: u8, header: Header) -> Header
    requires { header.line ≤ most_lines }
    ensures { begun_net result ≡ id_step replaying s.now b (begun_net header) }
{
    if header.refusal != 0 {
        return header;
    }
    let at = header.at;
    let Number::Value(v, next) = id_line(b, s, at) else {
        return refuse(header, FORM);
    };
    let ids = header.ids;
    let refusal = id_refusal(ids, v);
    if refusal != 0 {
        return refuse(header, refusal);
    }
    let faulty = header.faulty;
    onward(header, named_ids(ids, b, v), faulty, next)
}

// `id b v` for b = 1 to n
fn id_steps(s: &[u8], n: u8, first: Header) -> Header
    requires { first.line ≤ 2 }
    ensures { begun_net result ≡ id_steps replaying s.now n (begun_net first) }
{
    let mut header = first;
    let mut b: u8 = 0;
    while b < n {
        b += 1;
        header = id_step(s, b, header);
    }
    header
}

// The link between a and b is faulty, if one more may be.
fn mark_faulty(header: Header, a: u8, b: u8, next: usize) -> Header
    requires { header.line ≤ most_lines }
    ensures { begun_net result ≡ mark_step replaying a b next (begun_net header) }
{
    let named = name_faulty(header.faulty, header.t, a, b);
    if named.refusal != 0 {
        return refuse(header, named.refusal);
    }
    let ids = header.ids;
    let faulty = named.faulty;
    onward(header, ids, faulty, next)
}

// `faulty a b`, if that is the next line
fn faulty_step(s: &[u8], header: Header) -> Header
    requires { header.line ≤ most_lines }
    ensures { begun_net result ≡ faulty_step replaying s.now (begun_net header) }
{
    if header.refusal != 0 {
        return header;
    }
    let at = header.at;
    let Two::Both(a, b, next) = faulty_line(header.n, s, at) else {
        return header;
    };
    mark_faulty(header, a as u8, b as u8, next)
}

// As many lines as there may be, and one more
fn faulty_steps(s: &[u8], t: u8, first: Header) -> Header
    requires { first.line ≤ most_named_line }
    ensures { begun_net result ≡ repeat (suc t) (faulty_step replaying s.now) (begun_net first) }
{
    let most = (t as usize) + 1;
    let mut header = first;
    let mut k: usize = 0;
    while k < most {
        header = faulty_step(s, header);
        k += 1;
    }
    header
}

// The header of a schedule, up to its end or the first line that is turned down.
pub fn read_header(s: &[u8]) -> Header
    ensures result_value { begun_net result ≡ header_walk replaying s.now }
    ensures line_le_most_header_line { result.line ≤ most_header_line }
{
    let sized = net_step(s);
    let named = id_steps(s, sized.n, sized);
    faulty_steps(s, named.t, named)
}
