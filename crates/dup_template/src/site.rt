// Sites: the parts that a text says, and those that break no rule.
ghost use Rattle.std.specs.Prelude.{◌≡◌, ◌↔◌, ◌≤◌, ◌<◌, length, IfOk, IsTrue};
ghost use Rattle.std.specs.List.{slice_get};
ghost use Rattle.dup_names.specs.Words.{place};
ghost use Rattle.dup_names.specs.declared.limits.TheConstants.{MAX_FIELDS, MAX_KINDS, MAX_PAGE_RULES};
ghost use Rattle.dup_names.specs.declared.limits.TheConstants.{MAX_TEMPLATES};
ghost use Rattle.dup_template.specs.Frame.{frame_of, head_of, heads_of, with_body as replaced};
ghost use Rattle.dup_template.specs.Good as good;
ghost use Rattle.std.specs.Result.{result_err};

use crate::bodies::{bodies_hold, new_body_holds};
use crate::check::{heads_fit, kinds_fit, pages_fit};
use crate::numbers::{kind_place, template_place};
use crate::plain::Prefix;
use crate::refusal::SiteRefusal;
use crate::shared_body::SharedBody;
use crate::with_body::parts_with_body;
use dup_lists::Listed;
use dup_names::{Name, Path, place_of};
use std::alloc::Global;
use std::marker::Model;

/// A kind of records: its name, and the names of its fields in order.
#[derive(Debug, Drop, PartialEq, Eq)]
pub struct KindPart {
    pub name: Name,
    pub fields: Listed<Name>,
}

/// A template: its name, the kind that it is of, where it has one, and its statements.
#[derive(Debug, Drop, PartialEq, Eq)]
pub struct TemplatePart {
    pub name: Name,
    pub kind: Option<Name>,
    pub body: SharedBody,
}

/// A declaration of pages: one page, or a page `PREFIX/KEY` for each row of the template's kind.
#[derive(Clone, Copy, Debug, PartialEq, Eq)]
pub enum PageRule {
    Fixed { path: Path, template: Name },
    Family { prefix: Prefix, template: Name },
}

/// What a site text says, unchecked.
#[derive(Debug, Drop, PartialEq, Eq)]
pub struct Parts {
    pub kinds: Listed<KindPart>,
    pub templates: Listed<TemplatePart>,
    pub pages: Listed<PageRule>,
}

/// Parts that break no rule. Contracts see it as those parts.
#[derive(Drop)]
pub struct Site {
    parts: Parts,
}

impl Model for Site {
    ghost use Rattle.dup_template.specs.declared.site.Parts.{Parts};
    ghost use Rattle.dup_template.specs.contracts.statement.Statement as statement;
    ghost use Rattle.std.specs.Coded.{codes};

    ghost Value = { Parts };

    ghost coded = { Prim.hlevel (codes, statement.the_row.coded) };

    ghost view = { λ s. s.parts };

    ghost use Rattle.dup_template.specs.Good.{IsGood};

    ghost invariant = { λ s. IsGood s.parts };
}

fn same_kinds(a: &[KindPart], b: &[KindPart]) -> bool
    ensures { IsTrue result ↔ (a.now ≡ b.now) }
{
    a == b
}

fn same_rules(a: &[PageRule], b: &[PageRule]) -> bool
    ensures { IsTrue result ↔ (a.now ≡ b.now) }
{
    a == b
}

fn same_head(a: &TemplatePart, b: &TemplatePart) -> bool
    ensures { IsTrue result ↔ (head_of a.now ≡ head_of b.now) }
{
    a.name == b.name && a.kind == b.kind
}

// Whether the templates have the same names and kinds, place by place.
fn same_heads(a: &[TemplatePart], b: &[TemplatePart]) -> bool
    ensures { IsTrue result ↔ (heads_of a.now ≡ heads_of b.now) }
{
    if a.len() != b.len() {
        return false;
    }
    for (i, part) in a.iter().enumerate() {
        if !same_head(part, &b[i]) {
            return false;
        }
    }
    true
}

impl Site {
    /// The site of these parts, or the first rule that they break, in the order of `site_fault`.
    /// It takes no memory, so it never answers `NoMemory`. A name is looked up by walking a list
    /// of at most 256 names.
    pub fn check(parts: Parts) -> Result<Site, SiteRefusal>
        ensures value { IfOk result (λ site. site ≡ parts) }
        ensures fault { result_err result ≡ good.site_fault parts }
    {
        kinds_fit(parts.kinds.items())?;
        heads_fit(parts.kinds.items(), parts.templates.items())?;
        pages_fit(parts.templates.items(), parts.pages.items())?;
        bodies_hold(&parts)?;
        Ok(Site { parts })
    }

    /// The same site with this body in place of that of the template with this number, or the first rule
    /// that the body breaks there, as in `check`. The frame stays: names, kinds, fields and pages. It
    /// costs the body, and one more owner of each of the others.
    pub fn with_body(
        &self,
        alloc: Global,
        template: u16,
        body: &SharedBody,
    ) -> Result<Site, SiteRefusal>
        requires there { template < length self.now.templates }
        ensures value { IfOk result (λ site. site ≡ replaced self.now template body.now) }
        ensures fault { good.RefusedFor (result_err result)
            (good.new_body_fault (frame_of self.now) template body.now) }
    {
        let template = usize::from(template);
        new_body_holds(&self.parts, template, body.items())?;
        match parts_with_body(alloc, &self.parts, template, body) {
            Ok(parts) => Ok(Site { parts }),
            Err(_) => Err(SiteRefusal::NoMemory),
        }
    }

    /// The parts of the site, which break no rule.
    pub fn parts(&self) -> &Parts
        ensures value { result.now ≡ self.now }
        ensures good { good.IsGood result.now }
    {
        &self.parts
    }

    /// The kinds in order; a kind's number is its place, from 0.
    pub fn kinds(&self) -> &[KindPart]
        ensures value { result.now ≡ self.now.kinds }
        ensures within { length result.now ≤ MAX_KINDS }
    {
        self.parts.kinds.items()
    }

    /// The fields of a kind in order; none where the kind isn't there.
    pub fn fields(&self, kind: u16) -> &[Name]
        ensures value { result.now ≡ good.fields_of (slice_get self.now.kinds kind) }
        ensures within { length result.now ≤ MAX_FIELDS }
    {
        match self.parts.kinds.items().get(usize::from(kind)) {
            None => &[],
            Some(part) => part.fields.items(),
        }
    }

    /// The templates in order; a template's number is its place, from 0.
    pub fn templates(&self) -> &[TemplatePart]
        ensures value { result.now ≡ self.now.templates }
        ensures within { length result.now ≤ MAX_TEMPLATES }
    {
        self.parts.templates.items()
    }

    /// The number of the template with this name, or the number of templates where there is none.
    /// It walks at most 256 templates.
    pub fn template_number(&self, name: &Name) -> u16
        ensures { result ≡ place name.now (good.template_names (heads_of self.now.templates)) }
    {
        template_place(self.templates(), name) as u16
    }

    /// The number of the kind with this name, or the number of kinds where there is none. It walks
    /// at most 64 kinds.
    pub fn kind_number(&self, name: &Name) -> u16
        ensures { result ≡ place name.now (good.kind_names self.now.kinds) }
    {
        kind_place(self.kinds(), name) as u16
    }

    /// The number of a kind's field with this name, or the number of its fields where there is
    /// none. It walks at most 32 fields.
    pub fn field_number(&self, kind: u16, name: &Name) -> u16
        ensures { result ≡ place name.now (good.fields_of (slice_get self.now.kinds kind)) }
    {
        place_of(self.fields(kind), name) as u16
    }

    /// The declarations of pages in order.
    pub fn page_rules(&self) -> &[PageRule]
        ensures value { result.now ≡ self.now.pages }
        ensures within { length result.now ≤ MAX_PAGE_RULES }
    {
        self.parts.pages.items()
    }

    /// Whether another site has the same frame: the same kinds, declarations of pages, and names and kinds
    /// of templates, whatever their bodies. It compares all of these, and takes no memory.
    pub fn has_frame_of(&self, other: &Site) -> bool
        ensures { IsTrue result ↔ (frame_of self.now ≡ frame_of other.now) }
    {
        if !same_kinds(self.kinds(), other.kinds()) {
            return false;
        }
        if !same_rules(self.page_rules(), other.page_rules()) {
            return false;
        }
        same_heads(self.templates(), other.templates())
    }
}
