//! A query that was derived from some text.

ghost use Rattle.std.specs.Prelude.{◌≡◌, ℕ, List, length, min};
ghost use Rattle.query_ast.specs.Syntax.{tree_form};
ghost use Rattle.semantics.specs.Sets.{expansion};
ghost use Rattle.semantics.specs.Reading.{Derives};

use query_ast::Tree;
use query_resolve::set_count;
use std::marker::Model;

/// A query that some text derives within the limits, which contracts see as the form of its tree.
/// `parse` makes one of a text.
///
/// Example: `parse(alloc, "SELECT COUNT(*) FROM lines")` answers one, with a tree of one item.
pub struct Query {
    tree: Box<Tree>,
    ghost derived: { ∥ ((text : List ℕ) × Derives text (tree_form tree.value)) ∥₁ },
}

impl Model for Query {
    ghost use Rattle.semantics.specs.Syntax as syntax;
    ghost use Rattle.query_ast.specs.Syntax.{tree_form};
    ghost use Rattle.query_plan.specs.Coding.{coded_tree};

    ghost Value = { syntax.Query };

    ghost coded = { coded_tree };

    ghost view = { λ q. tree_form q.tree.value };
}

// A function of its own: a derived one is written out, and proved, wherever a query is given up.
impl Drop for Query {
    fn drop(self) {
        let Query { tree } = self;
        drop(tree);
    }
}

impl Query {
    /// The query of a tree. It asks that some text derives the tree within the limits.
    ///
    /// Example: of the tree of one item `COUNT(*)` and no other clause it makes the query of the
    /// text `SELECT COUNT(*) FROM lines`.
    pub fn new(tree: Box<Tree>) -> Query
        requires { ∥ ((text : List ℕ) × Derives text (tree_form tree.value)) ∥₁ }
        ensures { result ≡ tree_form tree.value }
    {
        Query { tree }
    }

    /// The syntax tree, which some text derives.
    pub fn tree(&self) -> &Tree
        ensures form { tree_form result.now ≡ self.now }
        ensures derived { ∥ ((text : List ℕ) × Derives text self.now) ∥₁ }
    {
        &self.tree
    }

    /// How many grouping sets the expanded list has, before GROUP BY DISTINCT drops any, or the
    /// greatest number of 64 bits where they are more. None is made, and no memory is taken.
    /// ISO/IEC 9075-2 `<group by clause>`.
    ///
    /// Example: it is 4 for `GROUP BY CUBE (d, r)`, and 1 without GROUP BY.
    pub fn set_count(&self) -> u64
        ensures count { result ≡ min (length (expansion self.now.groups)) u64.MAX }
    {
        set_count(&self.tree.groups)
    }
}
