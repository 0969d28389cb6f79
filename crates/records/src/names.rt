//! Laws of the names of documents.
ghost use Rattle.records.specs.Names.{EventsKeepNames, HeadsKeepNames, NoneIsNamed, PlaysKeepNames};

use connections::law_replies_in_order;

/// Proves that each document has a name of 1 to 64 bytes. The call does nothing. A desk without
/// documents has no other names (`none`). Events on connections keep it so (`events`), and so do
/// the lines of a head that are obeyed (`heads`) and records that are played (`played`).
pub fn law_names()
    ensures none { NoneIsNamed }
    ensures events { EventsKeepNames }
    ensures heads { HeadsKeepNames }
    ensures played { PlaysKeepNames }
{
    law_replies_in_order();
}
