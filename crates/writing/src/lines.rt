ghost use Rattle.std.specs.Prelude.{[]};
ghost use Rattle.grammar.specs.Spelling.{spell_class};
ghost use Rattle.grammar.specs.Tables.{laid};
ghost use Rattle.writing.specs.Wrote.{Put, Room};
ghost use Rattle.writing.specs.Walk.{rule_line, book_lines};

use crate::writer::Writer;
use grammar::{Book, Table};
use kinds::Class;

// The closing bracket of a line, and the line feed.
const LINE_END: &[u8] = b")\n";

impl Writer<'_> {
    // Writes the line of a class.
    fn put_class(&mut self, class: Class)
        requires { Room (spell_class class []) self.old }
        ensures { Put (spell_class class []) self.old self.new }
    {
        self.put(b"(class");
        self.put_number(class.first);
        self.put_number(class.second);
        self.put(LINE_END);
    }

    // Writes the line of the rule whose expression's node is `start`.
    fn put_rule(&mut self, table: &Table, start: u16)
        requires { Room (rule_line (laid table.now) start) self.old }
        ensures { Put (rule_line (laid table.now) start) self.old self.new }
    {
        self.put(b"(rule");
        self.put_expr(table, start);
        self.put(LINE_END);
    }

    /// Writes the lines of the classes, and then those of the rules.
    // In `write_book` itself the loops would lose what the lent buffer holds afterwards.
    pub(crate) fn put_book(&mut self, book: &Book)
        requires { Room (book_lines book.now) self.old }
        ensures { Put (book_lines book.now) self.old self.new }
    {
        for class in book.classes.as_slice() {
            self.put_class(*class);
        }
        for start in book.roots.as_slice() {
            self.put_rule(&book.table, *start);
        }
    }
}
