/// How the trucks of the classes that nobody is forced to use are paid at a leaf.
#[derive(Clone, Copy, Debug, PartialEq, Eq)]
pub enum Kind {
    /// Each shipment pays by its size, as its part of a full truck.
    Linear,
    /// Where one truck holds all shipments for which a class is allowed, they pay it in equal
    /// parts. Elsewhere as `Linear`.
    Even,
    /// By the table with this number, counted from 1, where it has a share for the class. Elsewhere
    /// as `Linear`.
    Table { id: u32 },
}

/// How a leaf is priced: the kind of its prices, the round as of which the points are taken, and
/// whether forced classes are paid whole, once for all whom they are forced on, in place of being
/// priced.
#[derive(Clone, Copy, Debug, PartialEq, Eq)]
pub struct LeafPrice {
    pub kind: Kind,
    pub round: u32,
    pub forced: bool,
}
