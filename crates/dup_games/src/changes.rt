// The commits of athletes, events and results.
ghost use Rattle.std.specs.Prelude.{◌≡◌, ◌≤◌, ◌++◌, OnOk};
ghost use Rattle.dup_games.specs.Games.{athlete, athletes, champion, comma_before, commit, event, new_event};
ghost use Rattle.dup_games.specs.Games.{result as result_row, results};

use crate::text::{put, put_numbered};
use dup_names::NoMemory;

const COMMIT: &[u8] = b"commit {\"changes\":[";

const END_OF_COMMIT: &[u8] = b"]}\n";

const END_OF_ROW: &[u8] = b"\"}}";

const CHAMPION: &[u8] = b"{\"put\":\"athlete\",\"key\":\"a1\",\"fields\":{\"name\":\"Champion\"}}";

/// How many athletes there are.
const ATHLETES: u16 = 8;

fn put_comma_before(number: u16, out: &mut Vec<u8>) -> Result<(), NoMemory>
    ensures { OnOk result (out.new.items ≡ out.old.items ++ comma_before number) }
{
    if number <= 1 {
        return Ok(());
    }
    put(b",", out)?;
    Ok(())
}

fn put_athlete(number: u16, out: &mut Vec<u8>) -> Result<(), NoMemory>
    ensures { OnOk result (out.new.items ≡ out.old.items ++ athlete number) }
{
    put_numbered(b"{\"put\":\"athlete\",\"key\":\"a", number, out)?;
    put_numbered(b"\",\"fields\":{\"name\":\"Athlete ", number, out)?;
    put(END_OF_ROW, out)?;
    Ok(())
}

/// Appends the commit of all athletes by their first names.
pub(crate) fn put_athletes(out: &mut Vec<u8>) -> Result<(), NoMemory>
    ensures { OnOk result (out.new.items ≡ out.old.items ++ athletes) }
{
    put(COMMIT, out)?;
    for before in 0..ATHLETES {
        put_comma_before(before + 1, out)?;
        put_athlete(before + 1, out)?;
    }
    put(END_OF_COMMIT, out)?;
    Ok(())
}

/// Appends the commit that gives the first athlete another name.
pub(crate) fn put_champion(out: &mut Vec<u8>) -> Result<(), NoMemory>
    ensures { OnOk result (out.new.items ≡ out.old.items ++ commit champion) }
{
    put(COMMIT, out)?;
    put(CHAMPION, out)?;
    put(END_OF_COMMIT, out)?;
    Ok(())
}

fn put_event(number: u16, out: &mut Vec<u8>) -> Result<(), NoMemory>
    ensures { OnOk result (out.new.items ≡ out.old.items ++ event number) }
{
    put_numbered(b"{\"put\":\"event\",\"key\":\"e", number, out)?;
    put_numbered(b"\",\"fields\":{\"title\":\"Event ", number, out)?;
    put(END_OF_ROW, out)?;
    Ok(())
}

/// Appends the commit of an event.
pub(crate) fn put_new_event(number: u16, out: &mut Vec<u8>) -> Result<(), NoMemory>
    ensures { OnOk result (out.new.items ≡ out.old.items ++ new_event number) }
{
    put(COMMIT, out)?;
    put_event(number, out)?;
    put(END_OF_COMMIT, out)?;
    Ok(())
}

fn put_result(event: u16, athlete: u16, out: &mut Vec<u8>) -> Result<(), NoMemory>
    requires { (event ≤ 500) × (athlete ≤ 8) }
    ensures { OnOk result (out.new.items ≡ out.old.items ++ result_row event athlete) }
{
    put_numbered(b"{\"put\":\"result\",\"key\":\"r", event, out)?;
    put_numbered(b"_", athlete, out)?;
    put_numbered(b"\",\"fields\":{\"athlete\":\"a", athlete, out)?;
    put_numbered(b"\",\"event\":\"e", event, out)?;
    put_numbered(b"\",\"place\":\"", (event + athlete) % 8 + 1, out)?;
    put(END_OF_ROW, out)?;
    Ok(())
}

/// Appends the commit of all athletes' results at an event.
pub(crate) fn put_results(event: u16, out: &mut Vec<u8>) -> Result<(), NoMemory>
    requires { event ≤ 500 }
    ensures { OnOk result (out.new.items ≡ out.old.items ++ results event) }
{
    put(COMMIT, out)?;
    for before in 0..ATHLETES {
        put_comma_before(before + 1, out)?;
        put_result(event, before + 1, out)?;
    }
    put(END_OF_COMMIT, out)?;
    Ok(())
}
