//! The sections of a certificate's lines, and where they can stand.
ghost use Rattle.std.specs.Prelude.{◌≡◌};
ghost use Rattle.fp_certificate.specs.Sections.{is_after_answer, is_before_end, is_beyond_direct, is_forbidden, is_misplaced_after, place_of};

use fp_certificate_lines::Answer;

/// The sections of a certificate's lines, in the order in which they stand.
#[derive(Clone, Copy)]
pub enum Section {
    Answer,
    Scale,
    Unit,
    Legs,
    Trucks,
    Points,
    Tables,
    Tree,
    End,
}

impl Section {
    // The place among the sections, from 0.
    fn place(self) -> u8
        ensures { result ≡ place_of self }
    {
        match self {
            Section::Answer => 0,
            Section::Scale => 1,
            Section::Unit => 2,
            Section::Legs => 3,
            Section::Trucks => 4,
            Section::Points => 5,
            Section::Tables => 6,
            Section::Tree => 7,
            Section::End => 8,
        }
    }

    // Whether it isn't that of the answer.
    fn is_after_answer(self) -> bool
        ensures { result ≡ is_after_answer self }
    {
        !matches!(self, Section::Answer)
    }

    // Whether it isn't that of the end.
    fn is_before_end(self) -> bool
        ensures { result ≡ is_before_end self }
    {
        !matches!(self, Section::End)
    }

    // Whether none of its lines can stand under a direct answer.
    fn is_beyond_direct(self) -> bool
        ensures { result ≡ is_beyond_direct self }
    {
        matches!(
            self,
            Section::Scale | Section::Unit | Section::Points | Section::Tables | Section::Tree
        )
    }

    // Whether none of its lines can stand under the answer.
    fn is_forbidden(self, answer: Answer) -> bool
        ensures { result ≡ is_forbidden answer self }
    {
        match answer {
            Answer::Direct { .. } => self.is_beyond_direct(),
            Answer::Optimal { .. } => false,
            Answer::Unfinished { .. } => false,
            Answer::Infeasible { .. } => self.is_before_end(),
        }
    }

    /// Whether a line of the section can't stand after lines of which the latest is of one section,
    /// `None` where there are none, and the first has the answer.
    pub fn is_misplaced_after(self, latest: Option<Section>, answer: Answer) -> bool
        ensures { result ≡ is_misplaced_after latest answer self }
    {
        match latest {
            None => self.is_after_answer(),
            Some(latest) => {
                !self.is_after_answer()
                    || self.place() < latest.place()
                    || self.is_forbidden(answer)
            }
        }
    }
}
