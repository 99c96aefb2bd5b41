// The script, part by part.
ghost use Rattle.std.specs.Prelude.{◌≡◌, ◌≤◌, ◌++◌, IfOk, OnOk};
ghost use Rattle.dup_games.specs.Games.{day_of_event, each_to, end, games_text, new_event, settled};

use crate::changes::{put_athletes, put_champion, put_new_event, put_results};
use crate::text::{put, put_numbered};
use dup_names::NoMemory;
use std::alloc::Global;

const SITE: &[u8] = b"kind athlete name
kind event title
kind result event athlete place
template who of athlete
link athlete_page
field name
end
end
template line of result
= <li>
field place
= .
embed who via athlete
= </li>
end
template event_page of event
= <h1>
field title
= </h1><ol>
each result by event order place
embed line
end
= </ol>
end
template athlete_page of athlete
= <h1>
field name
= </h1>
end
template home
= <ul>
each event
= <li>
link event_page
field title
end
= </li>
end
= </ul>
end
page / home
family /event event_page
family /athlete athlete_page
---
";

const NODES: &[u8] = b"node 1 16 update
node 2 16 invalidate
";

const HOME: &[u8] = b"settle
get 1 0 /
get 2 0 /
";

fn put_events(events: u16, out: &mut Vec<u8>) -> Result<(), NoMemory>
    requires { events ≤ 500 }
    ensures { OnOk result (out.new.items ≡ out.old.items ++ each_to new_event events) }
{
    for before in 0..events {
        put_new_event(before + 1, out)?;
    }
    Ok(())
}

// The way of a commit to the readers of an event's page.
fn put_settled(event: u16, out: &mut Vec<u8>) -> Result<(), NoMemory>
    ensures { OnOk result (out.new.items ≡ out.old.items ++ settled event) }
{
    put(b"settle\ndeliver 1\ndeliver 2\n", out)?;
    put_numbered(b"get 1 0 /event/e", event, out)?;
    put_numbered(b"\nget 2 0 /event/e", event, out)?;
    put(b"\n", out)?;
    Ok(())
}

fn put_day(event: u16, out: &mut Vec<u8>) -> Result<(), NoMemory>
    requires { event ≤ 500 }
    ensures { OnOk result (out.new.items ≡ out.old.items ++ day_of_event event) }
{
    put_results(event, out)?;
    put_settled(event, out)?;
    Ok(())
}

fn put_days(events: u16, out: &mut Vec<u8>) -> Result<(), NoMemory>
    requires { events ≤ 500 }
    ensures { OnOk result (out.new.items ≡ out.old.items ++ each_to day_of_event events) }
{
    for before in 0..events {
        put_day(before + 1, out)?;
    }
    Ok(())
}

fn put_end(events: u16, out: &mut Vec<u8>) -> Result<(), NoMemory>
    ensures { OnOk result (out.new.items ≡ out.old.items ++ end events) }
{
    put_champion(out)?;
    put_settled(events, out)?;
    put(b"status\n", out)?;
    Ok(())
}

/// The script of a day of so many events, 1 to 500, as `play` reads it: a site, then its commands. Eight
/// athletes have a place at each event. Each event's results are settled, delivered to two nodes and asked for
/// at both; at the end the first athlete gets another name, which each event's page shows. It has about 1,000
/// bytes an event, and is made in as many steps. The one error is want of memory.
pub fn games_text(alloc: Global, events: u16) -> Result<Vec<u8>, NoMemory>
    requires some { 1 ≤ events }
    requires most { events ≤ 500 }
    ensures { IfOk result (λ text. text.items ≡ games_text events) }
{
    let mut out = Vec::new(alloc);
    put(SITE, &mut out)?;
    put(NODES, &mut out)?;
    put_athletes(&mut out)?;
    put_events(events, &mut out)?;
    put(HOME, &mut out)?;
    put_days(events, &mut out)?;
    put_end(events, &mut out)?;
    Ok(out)
}
