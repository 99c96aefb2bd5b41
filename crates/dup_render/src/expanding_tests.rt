use crate::tests::{Row, content, key, name};
use crate::{Expanded, expand, is_job};
use dup_names::{Item, Key, Meter, Obj, Piece};
use dup_records::Content;
use dup_samples::RESULTS_SITE;
use dup_template::Value;
use std::alloc::Global;
use std::str;
use std::test::Fail;

// A list of rows with links that repeat, an `if`, and an object that is embedded twice.
const PEOPLE: &[u8] = b"kind person name friend
template person_page of person
field name
end
template roll
each person
if friend
field name
link person_page via friend
= *
end
end
end
link roll
= top
end
link roll
= top
end
end
template pair of person
embed person_page
embed person_page
key
end
page /roll roll
family /person person_page
";

// A template that asks twice for a group, once within itself, and twice for a list.
const TWICE: &[u8] = b"kind event title
kind result event place
template event_page of event
each result by event
key
end
each result by event order place
key
end
each result
each result by event
key
end
each result
key
end
end
end
family /event event_page
";

fn text(bytes: &[u8]) -> Result<&str, Fail> {
    let text = str::from_utf8(bytes).ok().ok_or("a text")?;
    Ok(text)
}

fn item_text(alloc: Global, item: &Item) -> Result<String, Fail> {
    let shown = match item {
        Item::Field { kind, key, field } => {
            format!(in alloc; "field {kind} {} {field}", text(key.bytes())?)?
        }
        Item::Row { kind, key } => format!(in alloc; "row {kind} {}", text(key.bytes())?)?,
        Item::List { kind } => format!(in alloc; "list {kind}")?,
        Item::Group { kind, field, key } => {
            format!(in alloc; "group {kind} {field} {}", text(key.bytes())?)?
        }
        Item::Template { template } => format!(in alloc; "template {template}")?,
    };
    Ok(shown)
}

fn keys_text(alloc: Global, keys: &[Key]) -> Result<String, Fail> {
    let mut out = String::new(alloc);
    for key in keys {
        out.push(' ')?;
        out.push_str(text(key.bytes())?)?;
    }
    Ok(out)
}

fn value_text(alloc: Global, value: &Value) -> Result<String, Fail> {
    let shown = match value {
        Value::Text(it) => format!(in alloc; " [{}]", text(it.bytes())?)?,
        Value::Exists(it) => format!(in alloc; " {it}")?,
        Value::Keys(it) => keys_text(alloc, it.items())?,
        Value::Body(it) => format!(in alloc; " body {}", it.lines())?,
    };
    Ok(shown)
}

// The notes, a line for each.
fn notes_text(alloc: Global, made: &Expanded) -> Result<String, Fail> {
    let mut out = String::new(alloc);
    for note in made.notes() {
        let item = item_text(alloc, &note.0)?;
        let value = value_text(alloc, &note.1)?;
        out.push_str(&format!(in alloc; "{item}:{value}\n")?)?;
    }
    Ok(out)
}

fn piece_text(alloc: Global, piece: &Piece) -> Result<String, Fail> {
    let shown = match piece {
        Piece::Plain(bytes) => format!(in alloc; "plain {}\n", text(bytes.bytes())?)?,
        Piece::Hole(
            Obj {
                template,
                key: None,
            },
        ) => format!(in alloc; "hole {template}\n")?,
        Piece::Hole(
            Obj {
                template,
                key: Some(key),
            },
        ) => format!(in alloc; "hole {template} {}\n", text(key.bytes())?)?,
    };
    Ok(shown)
}

// The pieces and the links, a line for each.
fn skeleton_text(alloc: Global, made: &Expanded) -> Result<String, Fail> {
    let mut out = String::new(alloc);
    for piece in made.skeleton().pieces.items() {
        out.push_str(&piece_text(alloc, piece)?)?;
    }
    for path in made.skeleton().links.items() {
        out.push_str(&format!(in alloc; "link {}\n", text(path.bytes())?)?)?;
    }
    Ok(out)
}

// An object by the name of its template, with this key, or with none where the text is no key.
fn expanded(
    alloc: Global,
    content: &Content,
    template: &str,
    row: &str,
    meter: &mut Meter,
) -> Result<Expanded, Fail> {
    let template = content.site().template_number(&name(template)?);
    let key = Key::read(row.as_bytes());
    let obj = Obj { template, key };
    if !is_job(content, &obj) {
        return Err(Fail::from("no such object"));
    }
    let made = expand(alloc, content, &obj, meter)?;
    Ok(made)
}

#[test]
fn an_event_notes_what_its_results_are_ordered_by(rt: HostRuntime) -> Result<(), Fail> {
    let alloc = rt.alloc();
    let rows: [Row; 4] = [
        ("event", "e1", &[("title", "100m")]),
        ("result", "r1", &[("event", "e1"), ("place", "2")]),
        ("result", "r2", &[("event", "e1"), ("place", "10")]),
        ("result", "r3", &[("event", "e1"), ("place", "9")]),
    ];
    let content = content(alloc, RESULTS_SITE, &rows)?;
    let mut meter = Meter::new();
    let made = expanded(alloc, &content, "event_page", "e1", &mut meter)?;
    let key = Some(key("e1")?);
    assert_eq!(rt; made.obj(), &Obj { template: 1, key });
    assert_eq!(rt; made.site().templates().len(), 2);
    assert_eq!(rt; made.notes().len(), 6);
    assert_eq!(rt;
        notes_text(alloc, &made)?.as_str(),
        "field 0 e1 0: [100m]
field 1 r1 2: [2]
field 1 r2 2: [10]
field 1 r3 2: [9]
group 1 0 e1: r1 r2 r3
template 1: body 6
"
    );
    assert_eq!(rt;
        skeleton_text(alloc, &made)?.as_str(),
        "plain <h1>100m</h1>
hole 0 r1
hole 0 r3
hole 0 r2
"
    );
    assert_eq!(rt; meter.count(), 1);
    Ok(())
}

#[test]
fn notes_and_links_stand_once_and_holes_as_often_as_they_are_met(
    rt: HostRuntime,
) -> Result<(), Fail> {
    let alloc = rt.alloc();
    let rows: [Row; 4] = [
        ("person", "ann", &[("friend", "bob"), ("name", "Ann")]),
        ("person", "bob", &[("name", "Bob")]),
        ("person", "cy", &[("friend", "bob"), ("name", "Cy")]),
        ("person", "dee", &[("friend", "zed"), ("name", "Dee")]),
    ];
    let content = content(alloc, PEOPLE, &rows)?;
    let mut meter = Meter::new();
    for (template, row, notes, skeleton) in [
        (
            "roll",
            "",
            "field 0 ann 0: [Ann]
field 0 ann 1: [bob]
field 0 bob 1: []
field 0 cy 0: [Cy]
field 0 cy 1: [bob]
field 0 dee 0: [Dee]
field 0 dee 1: [zed]
row 0 bob: true
row 0 zed: false
list 0: ann bob cy dee
template 1: body 14
",
            "plain Ann<a href=\"/person/bob\">*</a>Cy<a href=\"/person/bob\">*</a>Dee*<a href=\"/roll\">top</a><a href=\"/roll\">top</a>
link /person/bob
link /roll
",
        ),
        (
            "pair",
            "ann",
            "template 2: body 3\n",
            "hole 0 ann\nhole 0 ann\nplain ann\n",
        ),
        (
            "person_page",
            "zed",
            "field 0 zed 0: []\ntemplate 0: body 1\n",
            "",
        ),
    ] {
        let made = expanded(alloc, &content, template, row, &mut meter)?;
        assert_eq!(rt; notes_text(alloc, &made)?.as_str(), notes, "at {template}");
        assert_eq!(rt;
            skeleton_text(alloc, &made)?.as_str(),
            skeleton,
            "at {template}"
        );
    }
    assert_eq!(rt; meter.count(), 3);
    Ok(())
}

#[test]
fn a_group_that_is_asked_for_twice_has_its_rows_each_time(rt: HostRuntime) -> Result<(), Fail> {
    let alloc = rt.alloc();
    let rows: [Row; 4] = [
        ("event", "e1", &[("title", "100m")]),
        ("result", "e1", &[("event", "r2"), ("place", "3")]),
        ("result", "r1", &[("event", "e1"), ("place", "2")]),
        ("result", "r2", &[("event", "e1"), ("place", "1")]),
    ];
    let content = content(alloc, TWICE, &rows)?;
    let mut meter = Meter::new();
    let made = expanded(alloc, &content, "event_page", "e1", &mut meter)?;
    assert_eq!(rt;
        notes_text(alloc, &made)?.as_str(),
        "field 1 r1 1: [2]
field 1 r2 1: [1]
list 1: e1 r1 r2
group 1 0 e1: r1 r2
group 1 0 r1:
group 1 0 r2: e1
template 0: body 14
"
    );
    assert_eq!(rt;
        skeleton_text(alloc, &made)?.as_str(),
        "plain r1r2r2r1r1r2e1r1r2e1r1r2e1e1r1r2\n"
    );
    Ok(())
}
