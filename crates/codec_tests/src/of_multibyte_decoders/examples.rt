//! Worked examples, as equations over the tables that computing them proves.
mod euc_jp;
mod gb18030;
mod pairs;
