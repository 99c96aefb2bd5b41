// Contents: a site and the rows of its kinds.
ghost use Rattle.std.specs.Prelude.{◌≡◌, ◌+◌, ◌≤◌, ◌<◌, ◌^◌, ◌↔◌, [], ℕ, IsTrue, IfOk, OnOk, length, map, not, is_some, replicate};
ghost use Rattle.std.specs.Prelude.{slice_set};
ghost use Rattle.std.specs.Result.{result_err};
ghost use Rattle.dup_template.specs.Frame.{bodies_of, frame_of};
ghost use Rattle.dup_template.specs.Good.{RefusedFor, new_body_fault};
ghost use Rattle.std.specs.List.{filter, slice_get};
ghost use Rattle.std.specs.Option.{option_map, unwrap_or};
ghost use Rattle.dup_names.specs.Words.{same};
ghost use Rattle.dup_model.specs.Names.{field_at, fields_at, kind_at, kind_named, kind_of, object_of};
ghost use Rattle.dup_model.specs.Names.{template_at};
ghost use Rattle.dup_model.specs.Content.{IsOf, body_at, group, keys, row, start, table, text, value};
ghost use Rattle.dup_model.specs.Commits.{blank, put_row, with_fields, with_table};
ghost use Rattle.dup_model.specs.Tables.{IsRising, TablesRise};
ghost use Rattle.dup_records.specs.Fits.{HaveTexts, RowsFit};
ghost use Rattle.dup_records.specs.Costs.{GroupCosts};

use crate::agreeing::{are_group, are_keys, is_answer, is_body, is_text};
use crate::entry::Entry;
use crate::keys::keys_of;
use crate::rows::{set_fields, text_of, text_or_empty, texts_or_blank};
use crate::table::Table;
use dup_lists::Listed;
use dup_names::{Item, Key, KeyList, Name, NoMemory, Obj, Text};
use dup_steps::Steps;
use dup_template::{Body, SharedBody, Site, SiteRefusal, Statement, Value};
use std::alloc::Global;
use std::marker::{Brand, Model};
use std::sync::Arc;
use std::sync::ledger::{Blank, Ledger};

/// A site with the present bodies of its templates, and for each kind its rows, which are shared with the
/// contents that this one was made from.
/// The rows of a kind stand in the order of their keys, so a row is found by a binary search, and each
/// has a text for each field of its kind.
#[derive(Drop)]
pub struct Content {
    site: Arc<Site, Global>,
    tables: Vec<Arc<Table, Global>>,
    // The rows of a kind that isn't there.
    none: Arc<Table, Global>,
}

impl Model for Content {
    ghost use Rattle.std.specs.Prelude.{◌≡◌, [], map, length};
    ghost use Rattle.std.specs.List.{AllByRecursion};
    ghost use Rattle.std.specs.Coded.{codes};
    ghost use Rattle.dup_template.specs.contracts.statement.Statement as statement;
    ghost use Rattle.dup_model.specs.Content.{Content as Contents};
    ghost use Rattle.dup_template.specs.Frame.{frame_of, bodies_of};
    ghost use Rattle.dup_model.specs.Tables.{IsRising};
    ghost use Rattle.dup_records.specs.Fits.{TablesFit};

    ghost Value = { Contents };

    ghost coded = { Prim.hlevel (codes, statement.the_row.coded) };

    ghost view = { λ c. record {
      frame = frame_of c.site.value;
      bodies = bodies_of c.site.value;
      tables = map (λ t. t.value) c.tables.items;
    } };

    ghost invariant = { λ c.
        (length c.tables.items ≡ length c.site.value.kinds)
        × AllByRecursion IsRising (map (λ t. t.value) c.tables.items)
        × TablesFit (frame_of c.site.value) (map (λ t. t.value) c.tables.items)
        × (c.none.value ≡ []) };
}

fn table_at<'a>(tables: &'a [Arc<Table, Global>], kind: usize, none: &'a Table) -> &'a Table
    ensures { result.now ≡ unwrap_or (slice_get (map (λ t. t.value) tables.now) kind) none.now }
{
    match tables.get(kind) {
        None => none,
        Some(table) => table,
    }
}

fn shared_tables(
    alloc: Global,
    tables: &[Arc<Table, Global>],
) -> Result<Vec<Arc<Table, Global>>, NoMemory>
    ensures { IfOk result (λ made. map (λ t. t.value) made.items ≡ map (λ t. t.value) tables.now) }
{
    let mut made = Vec::with_capacity(alloc, tables.len())?;
    for table in tables {
        made.push(Arc::try_clone(table)?)?;
    }
    Ok(made)
}

fn empty_tables(alloc: Global, count: usize) -> Result<Vec<Arc<Table, Global>>, NoMemory>
    ensures tables { IfOk result (λ made. map (λ t. t.value) made.items ≡ replicate count []) }
{
    let mut made = Vec::with_capacity(alloc, count)?;
    for _index in 0..count {
        made.push(Arc::new(alloc, Table::new(alloc))?)?;
    }
    Ok(made)
}

impl Content {
    /// Content 0 of a site: no rows.
    pub fn start(alloc: Global, site: Arc<Site, Global>) -> Result<Content, NoMemory>
        ensures { IfOk result (λ made. made ≡ start site.value) }
    {
        let tables = empty_tables(alloc, site.kinds().len())?;
        let none = Arc::new(alloc, Table::new(alloc))?;
        Ok(Content { site, tables, none })
    }

    /// An equal content, which shares the site and all rows.
    pub fn copy(&self, alloc: Global) -> Result<Content, NoMemory>
        ensures { IfOk result (λ made. made ≡ self.now) }
    {
        let site = Arc::try_clone(&self.site)?;
        let tables = shared_tables(alloc, &self.tables)?;
        let none = Arc::try_clone(&self.none)?;
        Ok(Content { site, tables, none })
    }

    /// The site, with the present bodies.
    pub fn site(&self) -> &Arc<Site, Global>
        ensures { IsOf result.now.value self.now }
    {
        &self.site
    }

    /// The number of the kind with this name, or the number of kinds where there is none. It walks
    /// at most 64 kinds.
    pub fn kind_number(&self, name: &Name) -> u16
        ensures { result ≡ kind_at self.now.frame name.now }
    {
        self.site.kind_number(name)
    }

    /// The number of a kind's field with this name, or the number of its fields where there is
    /// none. It walks at most 32 fields.
    pub fn field_number(&self, kind: u16, name: &Name) -> u16
        ensures { result ≡ field_at self.now.frame kind name.now }
    {
        self.site.field_number(kind, name)
    }

    /// The number of the template with this name, or the number of templates where there is none. It
    /// walks at most 256 templates.
    pub fn template_number(&self, name: &Name) -> u16
        ensures { result ≡ template_at self.now.frame name.now }
    {
        self.site().template_number(name)
    }

    /// The number of templates.
    pub(crate) fn template_count(&self) -> u16
        ensures { result ≡ length self.now.frame.templates }
    {
        self.site.templates().len() as u16
    }

    /// The number of kinds.
    pub(crate) fn kind_count(&self) -> u16
        ensures { result ≡ length self.now.frame.kinds }
    {
        self.site.kinds().len() as u16
    }

    /// The names of a kind's fields, none of a kind that isn't there.
    pub(crate) fn fields(&self, kind: u16) -> &[Name]
        ensures { result.now ≡ fields_at self.now.frame kind }
    {
        self.site.fields(kind)
    }

    /// The kind of a template, if it has one.
    pub fn kind_of(&self, template: u16) -> Option<Name>
        ensures { result ≡ kind_of self.now.frame template }
    {
        match self.site().templates().get(usize::from(template)) {
            None => None,
            Some(part) => part.kind,
        }
    }

    /// The number of a template's kind, if it has one.
    pub fn kind_number_of(&self, template: u16) -> Option<u16>
        ensures { result ≡ option_map (kind_at self.now.frame) (kind_of self.now.frame template) }
    {
        match self.kind_of(template) {
            None => None,
            Some(name) => Some(self.kind_number(&name)),
        }
    }

    /// The number of the kind of the template with this name, if it has one.
    pub fn kind_named(&self, template: &Name) -> Option<u16>
        ensures { result ≡ kind_named self.now.frame template.now }
    {
        self.kind_number_of(self.template_number(template))
    }

    /// A template's statements, none where there is no such template.
    pub fn body_of(&self, template: u16) -> &[Statement]
        ensures { result.now ≡ body_at self.now template }
    {
        match self.site().templates().get(usize::from(template)) {
            None => &[],
            Some(part) => part.body.items(),
        }
    }

    /// The object of the template with this name: by itself where it has no kind, and else with this
    /// key.
    pub fn object_of(&self, template: &Name, key: &Option<Key>) -> Obj
        ensures { result ≡ object_of self.now.frame (template_at self.now.frame template.now) key.now }
    {
        let template = self.template_number(template);
        match self.kind_of(template) {
            None => Obj {
                template,
                key: None,
            },
            Some(_) => Obj {
                template,
                key: *key,
            },
        }
    }

    /// The rows of a kind in the order of their keys, none of a kind that isn't there.
    pub(crate) fn rows(&self, kind: u16) -> &Table
        ensures value { result.now ≡ table self.now kind }
        ensures rising { IsRising result.now }
        ensures fit { HaveTexts (length (fields_at self.now.frame kind)) result.now }
    {
        table_at(&self.tables, usize::from(kind), &self.none)
    }

    /// What its rows keep: they stand in the order of their keys, and have a text for each field. It
    /// does nothing: a proof learns what a type keeps by a call on the value.
    pub(crate) fn keeps_rows(&self)
        ensures rising { TablesRise self.now }
        ensures fit { RowsFit self.now }
    {
        let _tables = &self.tables;
    }

    /// The same content with these rows of a kind.
    pub(crate) fn with_rows(
        &self,
        alloc: Global,
        kind: u16,
        rows: Table,
    ) -> Result<Content, NoMemory>
        requires kind { kind < length self.now.frame.kinds }
        requires rising { IsRising rows }
        requires fit { HaveTexts (length (fields_at self.now.frame kind)) rows }
        ensures { IfOk result (λ made. made ≡ with_table self.now kind rows) }
    {
        let mut tables = shared_tables(alloc, &self.tables)?;
        tables[usize::from(kind)] = Arc::new(alloc, rows)?;
        let site = Arc::try_clone(&self.site)?;
        let none = Arc::try_clone(&self.none)?;
        Ok(Content { site, tables, none })
    }

    /// The same content with this body in place of a template's, or the first rule that the body breaks
    /// there.
    #[tactic(auto, using(dup_template::proofs::WithBody::frame_with_body, dup_template::proofs::WithBody::bodies_with_body))]
    pub(crate) fn with_body(
        &self,
        alloc: Global,
        template: u16,
        body: &SharedBody,
    ) -> Result<Content, SiteRefusal>
        requires there { template < length self.now.frame.templates }
        ensures value { IfOk result (λ made.
            made ≡ record self.now { bodies = slice_set self.now.bodies template body.now }) }
        ensures fault { RefusedFor (result_err result)
            (new_body_fault self.now.frame template body.now) }
    {
        let site = self.site.with_body(alloc, template, body)?;
        match self.with_site(alloc, site) {
            Ok(made) => Ok(made),
            Err(_) => Err(SiteRefusal::NoMemory),
        }
    }

    // The same rows of a site of the same frame.
    fn with_site(&self, alloc: Global, site: Site) -> Result<Content, NoMemory>
        requires frame { frame_of site ≡ self.now.frame }
        ensures { IfOk result (λ made. made ≡ record self.now { bodies = bodies_of site }) }
    {
        let tables = shared_tables(alloc, &self.tables)?;
        let site = Arc::new(alloc, site)?;
        let none = Arc::try_clone(&self.none)?;
        Ok(Content { site, tables, none })
    }

    /// The same content with these texts in the row of a kind that is under a key.
    pub(crate) fn with_put(
        &self,
        alloc: Global,
        kind: u16,
        key: &Key,
        fields: &[(Name, Text)],
    ) -> Result<Content, NoMemory>
        requires { kind < length self.now.frame.kinds }
        ensures { IfOk result (λ made.
            let names = fields_at self.now.frame kind in
            let texts = unwrap_or (row self.now kind key.now) (blank names) in
            made ≡ with_table self.now kind
            (put_row (key.now, with_fields names fields.now texts) (table self.now kind))) }
    {
        let names = self.fields(kind);
        let rows = self.rows(kind);
        let mut texts = texts_or_blank(alloc, rows.row(key), names)?;
        set_fields(names, fields, &mut texts)?;
        let made = rows.with_row(alloc, Entry::of(alloc, *key, texts)?)?;
        self.with_rows(alloc, kind, made)
    }

    /// The same content without the row of a kind that is under a key.
    pub(crate) fn without(&self, alloc: Global, kind: u16, key: &Key) -> Result<Content, NoMemory>
        requires { kind < length self.now.frame.kinds }
        ensures { IfOk result (λ made. made
            ≡ with_table self.now kind (filter (λ e. not (same e.0 key.now)) (table self.now kind))) }
    {
        let made = self.rows(kind).without(alloc, key)?;
        self.with_rows(alloc, kind, made)
    }

    fn has_row_counted<L: Ledger>(&self, kind: u16, key: &Key, steps: &mut Steps<L>) -> bool
        ensures { result ≡ is_some (row self.now kind key.now) }
    {
        self.rows(kind).find(key, steps).is_some()
    }

    /// Whether a row is there. It takes no memory, nor does `text`.
    pub fn has_row(&self, kind: u16, key: &Key) -> bool
        ensures { result ≡ is_some (row self.now kind key.now) }
    {
        self.rows(kind).row(key).is_some()
    }

    /// A row's field, empty where the row or the field isn't there.
    pub fn text<'a>(&'a self, kind: u16, key: &Key, field: u16) -> &'a [u8]
        ensures { result.now ≡ text self.now kind key.now field }
    {
        match text_of(self.rows(kind).row(key), usize::from(field)) {
            None => &[],
            Some(text) => text.bytes(),
        }
    }

    // A row's field as a value, whose text is shared where the row is there.
    fn text_value<L: Ledger>(
        &self,
        alloc: Global,
        kind: u16,
        key: &Key,
        field: u16,
        steps: &mut Steps<L>,
    ) -> Result<Text, NoMemory>
        ensures { IfOk result (λ made. made ≡ text self.now kind key.now field) }
    {
        let row = self.rows(kind).find(key, steps);
        text_or_empty(alloc, text_of(row, usize::from(field)))
    }

    // A template's body as a value, which is shared where the template is there.
    fn body_value(&self, alloc: Global, template: u16) -> Result<SharedBody, NoMemory>
        ensures { IfOk result (λ made. made ≡ body_at self.now template) }
    {
        match self.site().templates().get(usize::from(template)) {
            None => SharedBody::of(alloc, Body::of(Vec::new(alloc))),
            Some(part) => part.body.share(),
        }
    }

    // The keys of a kind, in order.
    fn keys_counted<L: Ledger>(
        &self,
        alloc: Global,
        kind: u16,
        steps: &mut Steps<L>,
    ) -> Result<KeyList, NoMemory>
        ensures { IfOk result (λ made. made ≡ keys self.now kind) }
    {
        let keys = keys_of(alloc, self.rows(kind).walk(), steps)?;
        Ok(Listed::of(keys))
    }

    fn keys_by<L: Ledger>(
        &self,
        blank: Blank,
        alloc: Global,
        kind: u16,
    ) -> Result<KeyList, NoMemory>
        requires name { blank.name ≡ L.name }
        requires parts { blank.parts ≡ L.parts }
        requires some { 0 < blank.parts }
        ensures { IfOk result (λ made. made ≡ keys self.now kind) }
    {
        let mut steps = Steps::<L>::new(blank);
        self.keys_counted(alloc, kind, &mut steps)
    }

    /// The keys of a kind, in order.
    pub fn keys(&self, alloc: Global, kind: u16) -> Result<KeyList, NoMemory>
        ensures { IfOk result (λ made. made ≡ keys self.now kind) }
    {
        self.keys_by::<Brand>(Blank::new(1), alloc, kind)
    }

    // The keys of the rows whose field is this text, in order.
    fn group_counted<L: Ledger>(
        &self,
        alloc: Global,
        kind: u16,
        field: u16,
        key: &Key,
        steps: &mut Steps<L>,
    ) -> Result<KeyList, NoMemory>
        ensures value { IfOk result (λ made. made ≡ group self.now kind field key.now) }
        ensures cost { IfOk result (λ made. (d : ℕ) → length (table self.now kind) < 2 ^ d →
            steps.new ≤ steps.old + length made + d + 8) }
    {
        let keys = self
            .rows(kind)
            .group(alloc, usize::from(field), key, steps)?;
        Ok(Listed::of(keys))
    }

    fn group_by<L: Ledger>(
        &self,
        blank: Blank,
        alloc: Global,
        kind: u16,
        field: u16,
        key: &Key,
    ) -> Result<KeyList, NoMemory>
        requires name { blank.name ≡ L.name }
        requires parts { blank.parts ≡ L.parts }
        requires some { 0 < blank.parts }
        ensures { IfOk result (λ made. made ≡ group self.now kind field key.now) }
    {
        let mut steps = Steps::<L>::new(blank);
        self.group_counted(alloc, kind, field, key, &mut steps)
    }

    /// The keys of the rows whose field is this text, in order. It costs a search, and a look at each.
    pub fn group(
        &self,
        alloc: Global,
        kind: u16,
        field: u16,
        key: &Key,
    ) -> Result<KeyList, NoMemory>
        ensures { IfOk result (λ made. made ≡ group self.now kind field key.now) }
    {
        self.group_by::<Brand>(Blank::new(1), alloc, kind, field, key)
    }

    /// The value of an item. Each step is a row, or a text with a row's key, that is looked at. A group costs
    /// a step for each of its keys, a search among as many as its kind has rows, and 8 more at most.
    pub fn value_counted<L: Ledger>(
        &self,
        alloc: Global,
        item: &Item,
        steps: &mut Steps<L>,
    ) -> Result<Value, NoMemory>
        ensures value { IfOk result (λ made. made ≡ value self.now item.now) }
        ensures cost { OnOk result (GroupCosts self.now item.now steps.old steps.new) }
    {
        match item {
            Item::Field { kind, key, field } => Ok(Value::Text(self.text_value(
                alloc, *kind, key, *field, steps,
            )?)),
            Item::Row { kind, key } => {
                Ok(Value::Exists(self.has_row_counted(*kind, key, steps)))
            }
            Item::List { kind } => Ok(Value::Keys(self.keys_counted(alloc, *kind, steps)?)),
            Item::Group { kind, field, key } => Ok(Value::Keys(self.group_counted(
                alloc, *kind, *field, key, steps,
            )?)),
            Item::Template { template } => Ok(Value::Body(self.body_value(alloc, *template)?)),
        }
    }

    fn value_by<L: Ledger>(
        &self,
        blank: Blank,
        alloc: Global,
        item: &Item,
    ) -> Result<Value, NoMemory>
        requires name { blank.name ≡ L.name }
        requires parts { blank.parts ≡ L.parts }
        requires some { 0 < blank.parts }
        ensures { IfOk result (λ made. made ≡ value self.now item.now) }
    {
        let mut steps = Steps::<L>::new(blank);
        self.value_counted(alloc, item, &mut steps)
    }

    /// The value of an item.
    pub fn value(&self, alloc: Global, item: &Item) -> Result<Value, NoMemory>
        ensures { IfOk result (λ made. made ≡ value self.now item.now) }
    {
        self.value_by::<Brand>(Blank::new(1), alloc, item)
    }

    fn agrees_by<L: Ledger>(&self, blank: Blank, item: &Item, seen: &Value) -> bool
        requires name { blank.name ≡ L.name }
        requires parts { blank.parts ≡ L.parts }
        requires some { 0 < blank.parts }
        ensures { IsTrue result ↔ (value self.now item.now ≡ seen.now) }
    {
        let mut steps = Steps::<L>::new(blank);
        match item {
            Item::Field { kind, key, field } => is_text(self.text(*kind, key, *field), seen),
            Item::Row { kind, key } => is_answer(self.has_row(*kind, key), seen),
            Item::List { kind } => are_keys(self.rows(*kind).walk(), seen, &mut steps),
            Item::Group { kind, field, key } => {
                are_group(self.rows(*kind), usize::from(*field), key, seen, &mut steps)
            }
            Item::Template { template } => is_body(self.body_of(*template), seen),
        }
    }

    /// Whether an item has this value. It takes no memory; of a list it walks the whole kind, of a group its
    /// rows, of a template its body.
    pub fn agrees(&self, item: &Item, seen: &Value) -> bool
        ensures { IsTrue result ↔ (value self.now item.now ≡ seen.now) }
    {
        self.agrees_by::<Brand>(Blank::new(1), item, seen)
    }
}
