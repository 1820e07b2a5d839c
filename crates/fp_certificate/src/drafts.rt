//! What the lines of a certificate have given so far.
ghost use Rattle.std.specs.Prelude.{◌≡◌, ◌<◌, false, length, MatchResult, Ok, OnOk, true};
ghost use Rattle.fp_certificate.specs.Answers.{with_answer, with_scale, with_unit};
ghost use Rattle.fp_certificate.specs.Gifts.{with_gift};
ghost use Rattle.fp_certificate.specs.Sections.{has_ended, is_misplaced};
ghost use Rattle.fp_certificate.specs.Points.{with_point};
ghost use Rattle.fp_certificate.specs.Outcomes.{IsFirst};
ghost use Rattle.fp_certificate.specs.Reading.{finished, nothing_read};
ghost use Rattle.fp_certificate.specs.Tables.{bars_weight, has_span, with_group, with_share, with_span, with_table, with_weight};
ghost use Rattle.fp_certificate.specs.Timetables.{with_leg, with_truck};
ghost use Rattle.fp_certificate.specs.Trees.{with_end, with_node};

use crate::NoMemory;
use crate::faults::CertFault;
use crate::lines::sections::Section;
use crate::open_gifts::{has_gift, push_gift};
use crate::open_groups::{has_group, push_group};
use crate::open_spans::{has_span, push_span, push_span_weight};
use crate::open_tables::{lacks_share, push_share, push_weight};
use fp_certificate_lines::{Answer, Certificate, Node};
use fp_prices::{Share, Table, Weight};
use fp_prices_gifts::{Gift, TableGifts};
use fp_prices_spans::{Span, TableSpans};
use fp_timenodes::AddedPoint;
use fp_timetable::{LegLine, TruckLine};
use std::alloc::Global;

/// What the lines so far have given, and the section of the latest of them.
#[derive(Drop)]
pub struct Draft {
    /// The parts of the certificate. Before the first line its answer stands for none.
    pub certificate: Certificate,
    /// The section of the latest line, `None` before the first.
    pub latest: Option<Section>,
}

impl Draft {
    /// Nothing read yet.
    pub fn new(alloc: Global) -> Draft
        ensures { result ≡ nothing_read }
    {
        Draft {
            certificate: Certificate {
                answer: Answer::Direct { cost: 0 },
                scale: None,
                unit: None,
                legs: Vec::new(alloc),
                trucks: Vec::new(alloc),
                points: Vec::new(alloc),
                tables: Vec::new(alloc),
                spans: Vec::new(alloc),
                gifts: Vec::new(alloc),
                moments: Vec::new(alloc),
                tree: Vec::new(alloc),
            },
            latest: None,
        }
    }

    /// The allocator of the lists.
    pub fn allocator(&self) -> Global {
        *self.certificate.tables.allocator()
    }

    /// Whether a line of the section can't stand after the lines so far.
    pub fn is_misplaced(&self, section: Section) -> bool
        ensures { result ≡ is_misplaced self.now section }
    {
        section.is_misplaced_after(self.latest, self.certificate.answer)
    }

    /// Whether the latest line is `end`.
    pub fn has_ended(&self) -> bool
        ensures { result ≡ has_ended self.now }
    {
        matches!(self.latest, Some(Section::End))
    }

    /// Whether a weight can't stand in the last table: it has a gift already, or the last of its
    /// spans has a group, or it has neither a span nor a share.
    pub fn bars_weight(&self) -> bool
        ensures { result ≡ bars_weight self.now.certificate.tables self.now.certificate.spans self.now.certificate.gifts }
    {
        if has_gift(&self.certificate.gifts) {
            return true;
        }
        if has_span(&self.certificate.spans) {
            has_group(&self.certificate.spans)
        } else {
            lacks_share(&self.certificate.tables)
        }
    }

    /// Takes an answer.
    pub fn set_answer(&mut self, answer: Answer)
        ensures { self.new ≡ with_answer self.old answer }
    {
        self.certificate.answer = answer;
        self.latest = Some(Section::Answer);
    }

    /// Takes a scale.
    pub fn set_scale(&mut self, scale: u32)
        ensures { self.new ≡ with_scale self.old scale }
    {
        self.certificate.scale = Some(scale);
        self.latest = Some(Section::Scale);
    }

    /// Takes a unit.
    pub fn set_unit(&mut self, unit: u128)
        ensures { self.new ≡ with_unit self.old unit }
    {
        self.certificate.unit = Some(unit);
        self.latest = Some(Section::Unit);
    }

    /// Adds a leg. The only error is `NoMemory`.
    pub fn add_leg(&mut self, leg: LegLine) -> Result<(), NoMemory>
        ensures { OnOk result (self.new ≡ with_leg self.old leg) }
    {
        let certificate = &mut self.certificate;
        certificate.legs.push(leg)?;
        self.latest = Some(Section::Legs);
        Ok(())
    }

    /// Adds a truck line. The only error is `NoMemory`.
    pub fn add_truck(&mut self, truck: TruckLine) -> Result<(), NoMemory>
        ensures { OnOk result (self.new ≡ with_truck self.old truck) }
    {
        let certificate = &mut self.certificate;
        certificate.trucks.push(truck)?;
        self.latest = Some(Section::Trucks);
        Ok(())
    }

    /// Adds a point. The only error is `NoMemory`.
    pub fn add_point(&mut self, point: AddedPoint) -> Result<(), NoMemory>
        ensures { OnOk result (self.new ≡ with_point self.old point) }
    {
        let certificate = &mut self.certificate;
        certificate.points.push(point)?;
        self.latest = Some(Section::Points);
        Ok(())
    }

    /// Adds a table, by moments or not, with no shares, no spans and no gifts. The only error is
    /// `NoMemory`.
    pub fn add_table(&mut self, by_moments: bool) -> Result<(), NoMemory>
        ensures { OnOk result (self.new ≡ with_table self.old by_moments) }
    {
        let alloc = self.allocator();
        let certificate = &mut self.certificate;
        certificate.tables.push(Table {
            shares: Vec::new(alloc),
        })?;
        certificate.spans.push(TableSpans {
            spans: Vec::new(alloc),
        })?;
        certificate.gifts.push(TableGifts {
            gifts: Vec::new(alloc),
        })?;
        certificate.moments.push(by_moments)?;
        self.latest = Some(Section::Tables);
        Ok(())
    }

    /// Adds a share to the last table. The only error is `NoMemory`.
    pub fn add_share(&mut self, share: Share) -> Result<(), NoMemory>
        requires { 0 < length self.old.certificate.tables }
        ensures { OnOk result (self.new ≡ with_share self.old share) }
    {
        let certificate = &mut self.certificate;
        push_share(&mut certificate.tables, share)?;
        self.latest = Some(Section::Tables);
        Ok(())
    }

    /// Adds a span to the last list of spans. The only error is `NoMemory`.
    pub fn add_span(&mut self, span: Span) -> Result<(), NoMemory>
        requires { 0 < length self.old.certificate.spans }
        ensures { OnOk result (self.new ≡ with_span self.old span) }
    {
        let certificate = &mut self.certificate;
        push_span(&mut certificate.spans, span)?;
        self.latest = Some(Section::Tables);
        Ok(())
    }

    /// Adds a weight to the last span of the last table, or to its last share where it has no span.
    /// The only error is `NoMemory`.
    pub fn add_weight(&mut self, weight: Weight) -> Result<(), NoMemory>
        requires { bars_weight self.old.certificate.tables self.old.certificate.spans self.old.certificate.gifts ≡ false }
        ensures { OnOk result (self.new ≡ with_weight self.old weight) }
    {
        let certificate = &mut self.certificate;
        if has_span(&certificate.spans) {
            push_span_weight(&mut certificate.spans, weight)?;
        } else {
            push_weight(&mut certificate.tables, weight)?;
        }
        self.latest = Some(Section::Tables);
        Ok(())
    }

    /// Adds a group to the last span of the last table, which begins at the moment. The only error
    /// is `NoMemory`.
    pub fn add_group(&mut self, moment: u32) -> Result<(), NoMemory>
        requires { has_span self.old.certificate.spans ≡ true }
        ensures { OnOk result (self.new ≡ with_group self.old moment) }
    {
        let certificate = &mut self.certificate;
        push_group(&mut certificate.spans, moment)?;
        self.latest = Some(Section::Tables);
        Ok(())
    }

    /// Adds a gift to the last list of gifts. The only error is `NoMemory`.
    pub fn add_gift(&mut self, gift: Gift) -> Result<(), NoMemory>
        requires { 0 < length self.old.certificate.gifts }
        ensures { OnOk result (self.new ≡ with_gift self.old gift) }
    {
        let certificate = &mut self.certificate;
        push_gift(&mut certificate.gifts, gift)?;
        self.latest = Some(Section::Tables);
        Ok(())
    }

    /// Adds a node. The only error is `NoMemory`.
    pub fn add_node(&mut self, node: Node) -> Result<(), NoMemory>
        ensures { OnOk result (self.new ≡ with_node self.old node) }
    {
        let certificate = &mut self.certificate;
        certificate.tree.push(node)?;
        self.latest = Some(Section::Tree);
        Ok(())
    }

    /// Takes the end.
    pub fn set_end(&mut self)
        ensures { self.new ≡ with_end self.old }
    {
        self.latest = Some(Section::End);
    }

    /// The certificate, or, where the lines have not ended, that the record with this ordinal is
    /// missing.
    pub fn finish(self, ordinal: u32) -> Result<Certificate, CertFault>
        ensures { MatchResult result (λ c. finished self ordinal ≡ Ok c) (λ e. IsFirst e (finished self ordinal)) }
    {
        if self.has_ended() {
            Ok(self.certificate)
        } else {
            Err(CertFault::Bad { ordinal, code: 26 })
        }
    }
}
