//! Channels and measured packets of a small network, worked out by hand.
//!
//! A packet of r1 takes a tick on each link. Under delay-jitter control it is eligible at B 10 + 3 ticks after it was at A, the bound and the
//! propagation there. So it arrives 13 + 1 + 2 = 16 ticks after that, where its promise is 10 + 3 + 10 + 2 = 25, and its jitter less than 10.
use crate::due::is_due;
use answer_grids::{Answer, Format, bytes_of};
use network_files::{Network, read_network};
use packet_questions::{Audit, BadLine, audit_of, channels_of};
use std::alloc::Global;
use std::test::Fail;

const NETWORK: &str = "\
tenet 1
# tick 10 us
link A n1 n2 rate 1 cap 1 prop 3 buffer 100 levels 10 20 40
link B n2 n3 rate 1 cap 1 prop 2 buffer 100 levels 10 20 40
caller c
open r1 route A B contract 5 10 20 1 delay 30 jitter 10
send r1 3 10 1
open r2 route A B contract 5 10 20 1 delay 20 rate
rounds 60
tail 60
";

// The packets of r1 at 0, 4 and 8 are eligible at 0, 5 and 20, so the last takes 12 ticks more.
const BROKEN: &str = "\
tenet 1
link A n1 n2 rate 1 cap 1 prop 3 buffer 100 levels 10 20 40
link B n2 n3 rate 1 cap 1 prop 2 buffer 100 levels 10 20 40
caller c
open r1 route A B contract 5 10 20 1 delay 30 jitter 10
send r1 3 4 1
rounds 60
tail 60
";

fn network_of(alloc: Global, text: &str) -> Result<Network, Fail> {
    match read_network(alloc, "-", text.as_bytes()) {
        Ok(network) => Ok(network),
        Err(_) => Err(Fail::from("no network")),
    }
}

// The channels of a network as CSV, and whether the answer is a yes.
fn channels_csv(alloc: Global, text: &str) -> Result<(String, bool), Fail> {
    let network = network_of(alloc, text)?;
    let answer = channels_of(alloc, &network)?;
    let bytes = bytes_of(alloc, &answer, Format::Csv)?;
    Ok((
        String::from_utf8_lossy(alloc, bytes.as_slice())?,
        answer.holds,
    ))
}

// What is found of a table as CSV, and the first sentence; or the bad lines.
fn audited(alloc: Global, text: &str, table: &str) -> Result<(String, String), Fail> {
    let network = network_of(alloc, text)?;
    match audit_of(alloc, &network, table.as_bytes())? {
        Audit::Read { answer, .. } => found(alloc, &answer),
        Audit::Bad { lines, more } => bad(alloc, &lines, more),
    }
}

fn found(alloc: Global, answer: &Answer) -> Result<(String, String), Fail> {
    let bytes = bytes_of(alloc, answer, Format::Csv)?;
    let text = String::from_utf8_lossy(alloc, bytes.as_slice())?;
    Ok((text, joined(alloc, &answer.lines)?))
}

fn joined(alloc: Global, lines: &[String]) -> Result<String, Fail> {
    let mut said = String::new(alloc);
    for line in lines {
        said.push_str(line.as_str())?;
        said.push('\n')?;
    }
    Ok(said)
}

fn bad(alloc: Global, lines: &[BadLine], more: usize) -> Result<(String, String), Fail> {
    let mut said = String::new(alloc);
    for bad in lines {
        let told = told(alloc, bad.line, bad.text.as_str())?;
        said.push_str(told.as_str())?;
    }
    Ok((format!(in alloc; "bad, and {more} more")?, said))
}

fn told(alloc: Global, line: u64, text: &str) -> Result<String, Fail> {
    Ok(format!(in alloc; "{line}: {text}\n")?)
}

#[test]
fn what_came_of_two_channels(rt: HostRuntime) -> Result<(), Fail> {
    let (text, holds) = channels_csv(rt.alloc(), NETWORK)?;
    is_due(
        &rt,
        text.as_str(),
        "request,verdict,source,arrived,wanted,promised,worst,to_spare,left,wanted_time,promised_time,worst_time,to_spare_time,left_time,longest_at,why\n\
r1,accept,keeps,3,30,25,16,5,9,300 us,250 us,160 us,50 us,90 us,B,\n\
r2,deny,,,20,,,,,200 us,,,,,,end delay 25 20\n",
    );
    assert!(rt; !holds);
    Ok(())
}

#[test]
fn a_source_that_breaks_its_contract(rt: HostRuntime) -> Result<(), Fail> {
    let (text, holds) = channels_csv(rt.alloc(), BROKEN)?;
    is_due(
        &rt,
        text.as_str(),
        "request,verdict,source,breaks_from,arrived,wanted,promised,worst,to_spare,left,longest_at,why\n\
r1,accept,breaks,2,3,30,25,28,5,-3,A,\n",
    );
    assert!(rt; holds);
    Ok(())
}

#[test]
fn packets_at_fault(rt: HostRuntime) -> Result<(), Fail> {
    let table = "channel,packet,sent,arrived\n\
r1,1,0,20\n\
r1,2,10,37\n\
r2,1,0,10\n\
r1,3,30,5\n\
r1,4,40,52\n\
r9,1,0,3\n\
r1,5,41,60\n\
r1,6,100,200\n";
    let (text, said) = audited(rt.alloc(), NETWORK, table)?;
    is_due(
        &rt,
        text.as_str(),
        "line,channel,packet,fault,by,limit,by_time,limit_time\n\
3,r1,2,late,2,25,20 us,250 us\n\
4,r2,1,not accepted,,,,\n\
5,r1,3,arrived before it was sent,,,,\n\
6,r1,4,uneven,15,10,150 us,100 us\n\
7,r9,1,unknown channel,,,,\n\
8,r1,5,breaks the contract,,,,\n",
    );
    is_due(&rt, said.as_str(), "8 packets: 6 at fault\n");
    Ok(())
}

// 255 us and 259.99 us are 25 ticks and a part of one, so nothing is late before 260 us. Two delays may differ by two ticks more.
#[test]
fn moments_between_ticks(rt: HostRuntime) -> Result<(), Fail> {
    let table = "channel,packet,sent,arrived\n\
r1,1,0,255 us\n\
r1,2,100 us,359.99 us\n\
r1,3,200 us,460 us\n\
r1,4,0.4 ms,510 us\n\
r1,5,0.6 ms,750 us\n";
    let (text, said) = audited(rt.alloc(), NETWORK, table)?;
    is_due(
        &rt,
        text.as_str(),
        "line,channel,packet,fault,by,limit,by_time,limit_time\n\
4,r1,3,late,1,25,10 us,250 us\n\
5,r1,4,uneven,15,10,150 us,100 us\n",
    );
    is_due(
        &rt,
        said.as_str(),
        "5 packets: 2 at fault\nnot all moments are whole ticks: a delay counts in whole ticks, and two may differ by 2 ticks more than promised\n",
    );
    Ok(())
}

#[test]
fn a_table_that_cannot_be_read(rt: HostRuntime) -> Result<(), Fail> {
    let table = "channel,packet,sent,arrived\n\
r1,1,0\n\
r 1,1,0,5\n\
r1,2,0,5\n\
r1,x,0,5\n\
r1,3,a,5\n\
r1,4,5,7.0001 ps\n";
    let (text, said) = audited(rt.alloc(), NETWORK, table)?;
    is_due(&rt, text.as_str(), "bad, and 0 more");
    is_due(
        &rt,
        said.as_str(),
        "2: 4 fields are wanted, channel,packet,sent,arrived, and there are 3\n\
3: channel r 1: a name is a letter followed by letters, digits and _, at most 16 characters in all\n\
4: packet 2: the next packet of this channel is 1; they are numbered from 1, in the order in which they are sent\n\
5: packet x: packets are numbered from 1, in the order in which they are sent\n\
6: sent a: a moment is a whole number of ticks, of at most 18 digits, or a number with a unit, as 1.25 ms\n\
7: arrived 7.0001 ps: a moment is a whole number of ticks, of at most 18 digits, or a number with a unit, as 1.25 ms\n",
    );
    Ok(())
}

#[test]
fn a_time_without_a_tick(rt: HostRuntime) -> Result<(), Fail> {
    let table = "channel,packet,sent,arrived\nr1,1,0,1 ms\n";
    let (text, said) = audited(rt.alloc(), BROKEN, table)?;
    is_due(&rt, text.as_str(), "bad, and 0 more");
    is_due(
        &rt,
        said.as_str(),
        "2: arrived 1 ms: how long a tick is isn't known, so a moment is a whole number of ticks; a note # tick 10 us in the scenario would say it\n",
    );
    let (_, said) = audited(rt.alloc(), BROKEN, "")?;
    is_due(
        &rt,
        said.as_str(),
        "1: the first line has to be channel,packet,sent,arrived\n",
    );
    Ok(())
}
