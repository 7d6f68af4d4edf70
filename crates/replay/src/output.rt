// The report in an output.
ghost use Rattle.std.specs.Prelude.{◌≡◌, ◌≤◌, length};
ghost use Rattle.limits.specs.Limits.{most_bases, longest_schedule};
ghost use Rattle.print.specs.Put.{Put};
ghost use Rattle.net.specs.Header.{begun_net};
ghost use Rattle.schedule.specs.Report.{report_room};
ghost use Rattle.schedule.specs.Walk.{next_line, repeat};
ghost use Rattle.stored_walk.specs.State.{most_header_line, report_net, replaying};

use base_lines::base_lines;
use event_lines::line_steps;
use net::Header;
use net::made::begun_net;
use report::{refused_line, waiting_line};
use waiting::waiting;

// Every line behind the header, up to the text's end or the first that is turned down, then the report. The net is not handed on, so
// that no third one is held.
pub(crate) fn put_report(s: &[u8], header: Header, out: &mut [u8]) -> usize
    requires line_le_most_header_line { (header.line ≤ most_header_line) × (header.refusal ≡ 0 → header.n ≤ most_bases) }
    requires s_len_bound { (length s.now ≤ longest_schedule) × (report_room ≤ length out.old) }
    ensures put { Put out.old 0 (report_net (repeat (length s.now) (next_line replaying s.now)
        (begun_net header))) out.new result }
    ensures upper_bound { result ≤ report_room }
{
    if header.refusal != 0 {
        return refused_line(out, 0, header.refusal, header.line);
    }
    let net = line_steps(s, begun_net(header), s.len());
    if net.refusal != 0 {
        return refused_line(out, 0, net.refusal, net.line);
    }
    let end = base_lines(net, out);
    waiting_line(out, end, waiting(net))
}
