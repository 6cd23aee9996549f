//! Rows: what is asked of a text.

use row_lines::RowFault;

/// What is asked of the tokens of a text.
#[derive(Clone, Copy)]
pub enum OfTokens {
    /// What they are.
    Kinds,
    /// Where they stand, and which file they say that they are of.
    Ranges,
    /// The presumed lines of each and of the end.
    Lines,
    /// The bytes of string literals.
    Literals,
}

/// What is asked of the tree of a text.
#[derive(Clone, Copy)]
pub enum OfTree {
    /// Whether it has one, or where it stops.
    Outcome,
    Shape,
    /// The shape, with the place of each node.
    Places,
    /// How many nodes it has, and how deep it is.
    Size,
    /// How many nodes each item has.
    Items,
    Tags,
}

/// What is asked of a text.
#[derive(Clone, Copy)]
pub enum Question {
    Tokens(OfTokens),
    /// What is presumed of the byte whose number begins the row's name.
    Presumed,
    Tree(OfTree),
}

/// What a row asks, its name, and the lines that stand for its text.
#[derive(Clone, Copy)]
pub struct Row<'a> {
    pub question: Question,
    pub name: &'a str,
    pub lines: &'a str,
}

fn of_tokens(word: &str) -> Option<OfTokens> {
    match word {
        "tokens" => Some(OfTokens::Kinds),
        "ranges" => Some(OfTokens::Ranges),
        "lines" => Some(OfTokens::Lines),
        "literals" => Some(OfTokens::Literals),
        _ => None,
    }
}

fn of_tree(word: &str) -> Option<OfTree> {
    match word {
        "parse" => Some(OfTree::Outcome),
        "tree" => Some(OfTree::Shape),
        "places" => Some(OfTree::Places),
        "sizes" => Some(OfTree::Size),
        "items" => Some(OfTree::Items),
        "tags" => Some(OfTree::Tags),
        _ => None,
    }
}

fn question_of(word: &str) -> Option<Question> {
    if let Some(asked) = of_tokens(word) {
        return Some(Question::Tokens(asked));
    }
    if let Some(asked) = of_tree(word) {
        return Some(Question::Tree(asked));
    }
    match word {
        "presumed" => Some(Question::Presumed),
        _ => None,
    }
}

/// The row of a block of lines.
pub fn row_in(block: &str) -> Result<Row<'_>, RowFault> {
    let (head, lines) = block.split_once('\n').unwrap_or((block, ""));
    let Some((word, name)) = head.split_once(' ') else {
        return Err(RowFault::NoRow);
    };
    match question_of(word) {
        Some(question) => Ok(Row {
            question,
            name,
            lines,
        }),
        None => Err(RowFault::NoRow),
    }
}
