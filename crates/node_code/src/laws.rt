//! What is true of pieces that stand one after another.
ghost use Rattle.node_code.specs.JoinedPieces.{PiecesStand, PiecesClose, HalvesStand};

/// Pieces stand one after another wherever they are linked.
pub fn pieces_stand()
    ensures { PiecesStand }
{}

/// Two pieces are a piece.
pub fn pieces_close()
    ensures { PiecesClose }
{}

/// Where a piece of two stands, both do.
pub fn halves_stand()
    ensures { HalvesStand }
{}
