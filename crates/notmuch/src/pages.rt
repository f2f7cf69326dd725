//! The pages that `main` prints where its one word asks for them: its help and its version.

/// What the program can be asked for.
pub(crate) const HELP: &[u8] = b"\
Usage: notmuch [--mail=DIR] [--index=DIR] [--workers=N] [--moment=S] COMMAND WORD ..

Indexes a folder of mail and searches it.

Options before the command
  --mail=DIR      the folder of mail, a tree of Maildirs (mail)
  --index=DIR     the folder of the index; it is made where it is not there (index)
  --workers=N     how many threads may read mail and index, 1 to 16 (4)
  --moment=S      the second since 1970 that counts as the present (the clock's)

Commands
  new             take in what has come, let go what is gone
  search QUERY    --output=summary|threads|messages|files|tags  --format=text|json
                  --sort=newest-first|oldest-first  --offset=N  --limit=N  --exclude=true|false
  count [QUERY]   --output=messages|threads|files  --exclude=true|false
                  --batch: each line of standard input is a query
  show QUERY      --format=text|raw  --exclude=true|false
  tag +TAG QUERY  +TAG sets a tag, -TAG takes it off, -- ends them  --remove-all
                  --batch: each line of standard input is such changes and a query
  dump [QUERY]    --format=batch-tag|sup
  restore < DUMP  --accumulate  --format=auto|batch-tag|sup
  drill N         try all this on a store of N mails made in memory, 1 to 20,000
  session         run the lines of a script on standard input, as '0 search from:ann'

Queries
  words, \"phrases\", from:ann to:bob subject:apples attachment:plan.pdf mimetype:image
  tag:inbox is:unread id:ID thread:ID folder:lists path:lists/** date:2024-01..2024-02
  joined by 'and', 'or', 'xor', 'not' and parentheses; * is every message

Status
  0 well, 1 a query or a line of the input is refused, or raw form found not one file,
  2 words are refused, 3 the mail folder failed, 4 the index failed, 5 the input failed,
  6 the output failed, 7 no memory, 8 no index, 9 a limit
";

pub(crate) const VERSION: &[u8] = b"notmuch (Beharoky) 0.1\n";
