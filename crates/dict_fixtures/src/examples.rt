// The databases of `examples/`, as octets, for tests. No part of the product.
/// The index of `gem`: a title and three entries, of which the first two have one text.
pub const GEM_INDEX: &[u8] = b"00-database-short\tA\tZ\nopal\tZ\tP\nFire Opal\tZ\tP\ndot\to\tF\n";

/// The text of `gem`.
pub const GEM_TEXT: &[u8] = b"00-database-short\n  Gems\nopal\n  a stone\n.dot\n";

/// The index of `ore`: a title and one entry.
pub const ORE_INDEX: &[u8] = b"00-database-short\tA\tX\niron\tX\tL\n";

/// The text of `ore`.
pub const ORE_TEXT: &[u8] = b"00-database-short\nOres\niron\n  ore\n";
