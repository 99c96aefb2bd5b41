// The law of the tables, and worked examples. Each is a function without a body.
ghost use Rattle.dup_serve.specs.Examples.{DeskRows, NodeRows};
ghost use Rattle.dup_serve.specs.Sendable.{TablesAreSendable};

/// Each reply of the tables can be sent.
pub fn tables_law()
    ensures { TablesAreSendable }
{}

/// What a node sends, word for word.
pub fn node_rows()
    ensures { NodeRows }
{}

/// What the feed desk sends, word for word.
pub fn desk_rows()
    ensures { DeskRows }
{}
