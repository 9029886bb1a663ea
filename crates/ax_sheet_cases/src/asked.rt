use crate::decisions::DecisionCase;
use crate::rows::RowCase;
use crate::rules::RuleCase;
use crate::sheets::SheetCase;
use crate::tables::TableCase;

/// What a line asks for.
#[derive(Clone, Copy)]
pub(crate) enum Asked {
    Sheet(SheetCase),
    Decision(DecisionCase),
    Rule(RuleCase),
    Row(RowCase),
    Table(TableCase),
}

/// What a line's word asks for.
pub(crate) fn read_asked(word: &[u8]) -> Option<Asked> {
    if let Some(case) = SheetCase::named(word) {
        return Some(Asked::Sheet(case));
    }
    if let Some(case) = DecisionCase::named(word) {
        return Some(Asked::Decision(case));
    }
    if let Some(case) = RuleCase::named(word) {
        return Some(Asked::Rule(case));
    }
    if let Some(case) = RowCase::named(word) {
        return Some(Asked::Row(case));
    }
    Some(Asked::Table(TableCase::named(word)?))
}
